// The words of a command line: decimal numbers, rows of Table N-1 written as digits, the sum's inputs from ten numbers; and the blanks
// that align a printed one.
#![tactic(auto)]

ghost use Rattle.std.specs.Prelude.{◌≡◌, Bool, ◌+◌, ◌*◌, ◌^◌, ◌<◌, ◌-◌, max, SomeIff};
ghost use Rattle.ground.specs.First.{first_of};
ghost use Rattle.interface_rows.specs.Stack.{stack_number_of};
ghost use Rattle.words.specs.Words.{number_of, word_number_of, is_rows, rows_order, rows_answer, inputs_of};

use headroom_sum::Inputs;
use interface_rows::{Delays, StackError};
use units::BitTimes;

// What a word says that is no number of 64 bits.
#[derive(Clone, Copy, Debug, PartialEq, Eq)]
pub enum WordError {
    NotANumber,
    TooLarge,
}

// The octets of `rows:`, after which digits name rows, counted from 1.
const PREFIX: usize = 5;

// A number followed by one more digit; none where 64 bits do not hold it.
fn extended(so_far: u64, digit: u64) -> Option<u64>
    ensures { SomeIff result (so_far * 10 + digit < 2 ^ 64) (so_far * 10 + digit) }
{
    so_far.checked_mul(10)?.checked_add(digit)
}

// A word of decimal digits as a number, up to what 64 bits hold. Any octets are answered.
#[tactic(auto, using(crate::proofs::Reading::reading))]
pub fn number_of(word: &[u8]) -> Result<u64, WordError>
    ensures { (word_number_of result ≡ 0) × (result ≡ number_of word.now) }
{
    if word.is_empty() {
        return Err(WordError::NotANumber);
    }
    let mut so_far = 0;
    for &octet in word {
        if !(b'0'..=b'9').contains(&octet) {
            return Err(WordError::NotANumber);
        }
        so_far = extended(so_far, u64::from(octet - b'0')).ok_or(WordError::TooLarge)?;
    }
    Ok(so_far)
}

// The word names rows of Table N-1: it begins with `rows:`.
#[tactic(auto, using(crate::proofs::Reading::begins))]
pub fn is_rows(word: &[u8]) -> bool
    ensures { result ≡ is_rows word.now }
{
    word.starts_with(b"rows:")
}

// The delays of the stack whose rows the digits after `rows:` name, counted from 1. A shorter word names no stack. (What stands before the
// digits is not looked at: by `strip_prefix` this would answer less.)
#[tactic(auto, using(crate::proofs::Numbers::promised, crate::proofs::Reading::too_short, crate::proofs::Reading::from_prefix))]
pub fn delays_of_rows(word: &[u8]) -> Result<Delays, StackError>
    ensures { (stack_number_of result ≡ first_of (rows_order word.now)) × (result ≡ rows_answer word.now)
        × (word.exit.now ≡ word.now) }
{
    let rows = word.get(PREFIX..).ok_or(StackError::Unknown)?;
    interface_rows::stack_delays(b'1', rows)
}

// How many blanks stand before so many digits in a column: at least one.
pub fn blanks(width: usize, digits: usize) -> usize
    ensures { result ≡ max 1 (width - digits) }
{
    width.saturating_sub(digits).max(1)
}

// The sum's inputs, in the order of the arguments.
pub fn inputs_of(numbers: &[u64; 10]) -> Inputs
    ensures { result ≡ inputs_of numbers.now }
{
    Inputs {
        rate: numbers[0],
        metres: numbers[1],
        percentage: numbers[2],
        largest: numbers[3],
        generation: BitTimes(numbers[4]),
        b_transmit: BitTimes(numbers[5]),
        b_receive: BitTimes(numbers[6]),
        a_transmit: BitTimes(numbers[7]),
        a_receive: BitTimes(numbers[8]),
        halt: BitTimes(numbers[9]),
    }
}
