// Reading and building frames.
ghost use Rattle.std.specs.Prelude.{◌+◌, ◌≤◌, length};

use crate::turns;
use frame::Request;
use refusals::Refusal;

// (One by one: a fold over the eight cost 35 instructions a frame more, two thirds of what reading costs.)
fn asks(asked: Request) -> u64 {
    let low = turns::add(
        u64::from(asked.times[0]),
        turns::add(
            u64::from(asked.times[1]),
            turns::add(u64::from(asked.times[2]), u64::from(asked.times[3])),
        ),
    );
    let high = turns::add(
        u64::from(asked.times[4]),
        turns::add(
            u64::from(asked.times[5]),
            turns::add(u64::from(asked.times[6]), u64::from(asked.times[7])),
        ),
    );
    turns::add(2_000, turns::add(u64::from(asked.e), turns::add(low, high)))
}

fn verdict(found: Result<Option<Request>, Refusal>) -> u64 {
    match found {
        Ok(None) => 1_000,
        Ok(Some(asked)) => asks(asked),
        Err(refusal) => u64::from(refusal.number()),
    }
}

// What the frame is that stands in the slot from a place on: a length of two octets, and at most 126 of the frame.
fn read(slots: &[u8], at: usize, largest: u64, own: [u8; 6]) -> u64
    requires { at + 128 ≤ length slots.now }
{
    let start = at + 2;
    let size = usize::from(octets::word_at(slots, at)).min(126);
    verdict(frame::read(&slots[start..start + size], largest, own))
}

// The place of the next slot: after the last whole one comes the first.
fn next(at: usize, octets: usize) -> usize
    requires { (128 ≤ octets) × (at + 128 ≤ octets) }
    ensures { result + 128 ≤ octets }
{
    if octets - at < 256 { 0 } else { at + 128 }
}

// The slots' frames are read in turn.
fn read_all(slots: &[u8], largest: u64, own: [u8; 6], turns: u64) -> u64
    requires { 128 ≤ length slots.now }
{
    let mut sum: u64 = 0;
    let mut at: usize = 0;
    for _ in 0..turns {
        sum = turns::add(sum, read(slots, at, largest, own));
        at = next(at, slots.len());
    }
    sum
}

pub(crate) fn reading(material: &[u8], turns: u64) -> u64 {
    if material.len() < 136 {
        return 0;
    }
    let mut own = [0u8; 6];
    own.copy_from_slice(&material[2..8]);
    let largest = u64::from(octets::word_at(material, 0));
    read_all(&material[8..], largest, own, turns)
}

// A frame is built with what the turn gives.
fn build(buffer: &mut [u8], turn: u64) -> u64 {
    let source = [0x02, 0x00, 0x00, 0x00, 0x00, 0x0B];
    let answer = frame_build::build(buffer, source, (turn % 256) as u8, turns::times(turn));
    match answer {
        Ok(()) => u64::from(octets::octet_at(buffer, (turn % 64) as usize)),
        Err(refusal) => u64::from(refusal.number()),
    }
}

pub(crate) fn building(turns: u64) -> u64 {
    let mut buffer = [0u8; 64];
    (0..turns)
        .map(|turn| build(&mut buffer, turn))
        .fold(0, turns::add)
}
