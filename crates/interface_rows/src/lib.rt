// Table N-1's interface rows, and the delays of a stack of them.
#![tactic(auto)]

ghost use Rattle.std.specs.Prelude.{◌≡◌, map, ◌+◌, min};
ghost use Rattle.ground.specs.First.{first_of};
ghost use Rattle.interface_rows.specs.TableN1.{row_at, row_number_of, transmit_half, receive_half};
ghost use Rattle.interface_rows.specs.Stack.{index_from, enough, delays_of, stack_order, stack_answer, stack_number_of};

use limits::LARGEST_DELAY;
use refusals::Refusal;
use units::{BitTimes, Quanta};

// A row: the delay of both directions together, in bits and in quanta.
// (Without names, so that a row of the table is a line.)
#[derive(Clone, Copy)]
pub struct Row(pub BitTimes, pub Quanta);

// A stack's transmit and receive delay.
#[derive(Clone, Copy)]
pub struct Delays {
    pub transmit: BitTimes,
    pub receive: BitTimes,
}

// What a stack has instead: 14 where a delay is above what a station delay may be; or a row that the table lacks.
#[derive(Clone, Copy, Debug, PartialEq, Eq)]
pub enum StackError {
    Refused(Refusal),
    Unknown,
}

// The eight rows, each by its name.
pub const MAC_CONTROL_MAC_AND_RS: Row = Row(BitTimes(8192), Quanta(16));

pub const XGXS_AND_XAUI: Row = Row(BitTimes(2048), Quanta(4));

pub const PCS_10GBASE_X: Row = Row(BitTimes(2048), Quanta(4));

pub const PCS_10GBASE_R: Row = Row(BitTimes(3584), Quanta(7));

pub const LX4: Row = Row(BitTimes(512), Quanta(1));

pub const CX4: Row = Row(BitTimes(512), Quanta(1));

pub const SERIAL_PMA_AND_PMD: Row = Row(BitTimes(512), Quanta(1));

pub const PHY_10GBASE_T: Row = Row(BitTimes(25600), Quanta(50));

const ROWS: usize = 8;

pub const TABLE_N_1: [Row; ROWS] = [
    MAC_CONTROL_MAC_AND_RS,
    XGXS_AND_XAUI,
    PCS_10GBASE_X,
    PCS_10GBASE_R,
    LX4,
    CX4,
    SERIAL_PMA_AND_PMD,
    PHY_10GBASE_T,
];

// The bits from where on a stack is refused by 14, however many more it has.
const ENOUGH: BitTimes = BitTimes(2 * LARGEST_DELAY.0 + 1);

// The row at an index counted from 0; any number may be asked.
#[tactic(auto, using(crate::proofs::Numbers::no_number), unfolding(ground::specs::Pick::pick, crate::specs::TableN1::row_at))]
pub fn row_at(index: usize) -> Option<Row>
    ensures { (row_number_of result ≡ 0) × (result ≡ row_at index) }
{
    TABLE_N_1.get(index).copied()
}

// The half of a row that is its transmit delay.
pub fn transmit_of(row: Row) -> BitTimes
    ensures { result.0 ≡ transmit_half row.0.0 }
{
    BitTimes(row.0.0 / 2)
}

// The half of a row that is its receive delay.
pub fn receive_of(row: Row) -> BitTimes
    ensures { result.0 ≡ receive_half row.0.0 }
{
    BitTimes(row.0.0 - row.0.0 / 2)
}

// The index of the row that an octet names, rows counted from first; past the table where the octet is below first.
#[tactic(auto, unfolding(ground::specs::Pick::pick, crate::specs::Stack::index_from))]
fn index_from(first: u8, octet: u8) -> usize
    ensures { result ≡ index_from first octet }
{
    octet.checked_sub(first).map_or(ROWS, usize::from)
}

// A stack's bits so far and one row's more, no further than enough.
fn more_bits(whole: BitTimes, row: BitTimes) -> BitTimes
    ensures { result.0 ≡ min (whole.0 + row.0) enough }
{
    let more = units::sum_of_bits(whole, row);
    if ENOUGH.0 < more.0 { ENOUGH } else { more }
}

// The two delays of a stack's bits.
#[tactic(auto, unfolding(ground::specs::Pick::pick, crate::specs::Stack::delays_of))]
fn halves(whole: BitTimes) -> Result<Delays, StackError>
    ensures { result ≡ delays_of whole.0 }
{
    let transmit = whole.0 / 2;
    let receive = whole.0 - transmit;
    if LARGEST_DELAY.0 < receive {
        return Err(StackError::Refused(Refusal::Delay));
    }
    Ok(Delays {
        transmit: BitTimes(transmit),
        receive: BitTimes(receive),
    })
}

// The transmit and receive delay of a station whose interface is a stack of the table's rows, in any order and as often as they stand
// in it. Each octet names a row, counted from first. Any octets are answered: one that names no row gives Unknown, a delay above
// 1,048,576 gives 14.
#[tactic(auto, using(crate::proofs::Stack::stacking))]
pub fn stack_delays(first: u8, rows: &[u8]) -> Result<Delays, StackError>
    ensures { (stack_number_of result ≡ first_of (stack_order (map (index_from first) rows.now)))
        × (result ≡ stack_answer (map (index_from first) rows.now)) }
{
    let mut whole = BitTimes(0);
    for &octet in rows {
        let row = row_at(index_from(first, octet)).ok_or(StackError::Unknown)?;
        whole = more_bits(whole, row.0);
    }
    halves(whole)
}
