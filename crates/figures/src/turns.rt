// What a turn's number gives, and the sum over the answers.

// The count of turns of a figures file, its octets 1 to 8.
pub(crate) fn count(file: &[u8]) -> u64 {
    octets::wide_at(file, 1)
}

// The sum goes on from 0 after the last value.
pub(crate) fn add(sum: u64, answer: u64) -> u64 {
    sum.wrapping_add(answer)
}

// time[n] of a turn: 8,191 more for each n.
fn time_of(turn: u64, more: u64) -> u16 {
    (turn.wrapping_add(more) % 65_536) as u16
}

// The eight times of a turn.
pub(crate) fn times(turn: u64) -> [u16; 8] {
    [0, 8_191, 16_382, 24_573, 32_764, 40_955, 49_146, 57_337].map(|more| time_of(turn, more))
}
