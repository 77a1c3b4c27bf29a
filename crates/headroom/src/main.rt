// The headroom sum for a support engineer: the cable, the rate, the largest frame and the delays go in as words, and the room to
// keep comes out item by item.
#![tactic(auto)]

mod print;

use headroom_sum::Inputs;
use interface_rows::{Delays, StackError};
use page::Page;
use std::env::{Env, FillError};
use units::BitTimes;

// Prints a page; a write that fails is said on standard error.
fn show(rt: &HostRuntime, page: &Page) {
    let _ = console::output::write_page(rt, &mut rt.stdout(), b"headroom", page);
}

// Room for an argument.
fn buffer() -> [u8; 4_096] {
    [0u8; 4_096]
}

// Argument i, in the room that is lent for it; empty where it is missing or longer than that.
fn argument<'a>(rt: &HostRuntime, i: usize, buffer: &'a mut [u8]) -> &'a [u8] {
    let n = rt.arg(i, buffer).unwrap_or(0);
    &buffer[..n]
}

// The number that argument i says; what else it says is told.
fn number_at(rt: &HostRuntime, i: usize) -> Option<u64> {
    let mut buffer = buffer();
    let given = argument(rt, i, &mut buffer);
    match words::number_of(given) {
        Ok(number) => Some(number),
        Err(error) => {
            show(rt, &print::told(i, given, error));
            None
        }
    }
}

// The half of a stack's delays that is asked for; what else a stack is, is told.
fn half_of<F: FnOnce(Delays) -> BitTimes>(
    rt: &HostRuntime,
    i: usize,
    stack: Result<Delays, StackError>,
    half: F,
) -> Option<u64>
    requires { F.IsAlwaysCallable half }
{
    match stack {
        Ok(delays) => Some(half(delays).0),
        Err(StackError::Refused(_)) => {
            show(rt, &print::stack_too_long(i));
            None
        }
        Err(StackError::Unknown) => {
            show(rt, &print::no_such_row(i));
            None
        }
    }
}

// The delay that argument i says, in bits or by rows of Table N-1, of which a half counts.
fn delay_at<F: FnOnce(Delays) -> BitTimes>(rt: &HostRuntime, i: usize, half: F) -> Option<u64>
    requires { F.IsAlwaysCallable half }
{
    let mut buffer = buffer();
    let given = argument(rt, i, &mut buffer);
    if words::is_rows(given) {
        return half_of(rt, i, words::delays_of_rows(given), half);
    }
    number_at(rt, i)
}

// The halt delay's limit at a rate, in bits.
fn limit_bits(rate: u64) -> u64 {
    headroom_sum::halt_limit(rate).map_or(0, |limit| units::bits_of_quanta(limit).0)
}

fn answer(rt: &HostRuntime, inputs: Inputs) {
    match headroom_sum::sum(inputs) {
        Ok(items) => show(rt, &print::items(inputs, items)),
        Err(refusal) => show(
            rt,
            &print::refusal(refusal, inputs.rate, limit_bits(inputs.rate)),
        ),
    }
}

// The number that argument i says: arguments 6 to 9 are delays, B's and then A's, transmit before receive.
fn word_at(rt: &HostRuntime, i: usize) -> Option<u64> {
    match i {
        6 | 8 => delay_at(rt, i, |delays| delays.transmit),
        7 | 9 => delay_at(rt, i, |delays| delays.receive),
        _ => number_at(rt, i),
    }
}

// The ten arguments as numbers; none where one of them says none.
fn read_numbers(rt: &HostRuntime) -> Option<[u64; 10]> {
    let mut numbers = [0; 10];
    for i in 0..10 {
        numbers[i] = word_at(rt, i + 1)?;
    }
    Some(numbers)
}

// Whether there is an argument i, however long.
fn is_present(rt: &HostRuntime, i: usize) -> bool {
    let mut buffer = [0u8; 1];
    !matches!(rt.arg(i, &mut buffer), Err(FillError::NotPresent))
}

fn main(rt: HostRuntime) {
    if !is_present(&rt, 10) || is_present(&rt, 11) {
        show(&rt, &print::usage());
        return;
    }
    if let Some(numbers) = read_numbers(&rt) {
        answer(&rt, words::inputs_of(&numbers));
    }
}
