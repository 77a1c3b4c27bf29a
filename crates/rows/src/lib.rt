// The frames under way in one direction, in lent arrays, oldest first: the moments at which their wire times end, and their octets in
// slots of one width. A new frame is put behind the others; one that arrives leaves by the front, and the others move up. Arrays of any
// size are taken: what has no place in them is not written.
#![tactic(auto)]

ghost use Rattle.std.specs.Prelude.{◌≡◌, ◌*◌, ◌-◌, min, length, set};
ghost use Rattle.rows.specs.Rows.{oldest_in, written, shifted};

use moments::Moment;
use units::OctetTimes;

// What goes by value of a direction: the moment from which its wire is free, and how many frames are under way.
#[derive(Clone, Copy)]
pub struct Direction {
    pub free: OctetTimes,
    pub count: u64,
}

// When the wire time of the oldest frame ends, if one is under way.
#[tactic(auto, unfolding(crate::specs::Rows::oldest_in, ground::specs::Pick::pick))]
pub fn oldest(ends: &[u64], count: u64) -> Moment
    ensures { result ≡ oldest_in count ends.now }
{
    if count == 0 {
        None
    } else {
        ends.first().map(|end| OctetTimes(*end))
    }
}

// How many places so many slots of a width take, and no more than `most`: the product need not fit a word.
fn places(width: usize, count: u64, most: usize) -> usize
    ensures { result ≡ min (width * count) most }
{
    width.saturating_mul(count as usize).min(most)
}

// Writes the end of the frame behind `count` others.
fn write_end(ends: &mut [u64], count: u64, end: u64)
    ensures { ends.new ≡ set ends.old count end }
{
    // Not by `get_mut`: what a slice holds after it is not known to a proof.
    let place = count as usize;
    if place < ends.len() {
        ends[place] = end;
    }
}

// Writes octets at a place, if they fit there.
#[tactic(auto, using(crate::proofs::Writing::written_out, crate::proofs::Writing::written_part))]
fn write_at(slots: &mut [u8], place: usize, octets: &[u8])
    ensures { slots.new ≡ written place octets.now slots.old }
{
    if place <= slots.len() && octets.len() <= slots.len() - place {
        slots[place..place + octets.len()].copy_from_slice(octets);
    }
}

// Puts a frame behind `count` others: its end at that place of the ends, its octets, as many as a slot has, in that slot.
#[tactic(auto, using(crate::proofs::Writing::written_within))]
pub fn push(ends: &mut [u64], slots: &mut [u8], count: u64, end: OctetTimes, octets: &[u8])
    ensures { (ends.new ≡ set ends.old count end.0)
        × (slots.new ≡ written (length octets.now * count) octets.now slots.old) }
{
    write_end(ends, count, end.0);
    let place = places(octets.len(), count, slots.len());
    write_at(slots, place, octets);
}

// How many places move up by a width, where `left` slots are to: no more than stand behind the first slot.
fn movable(size: usize, width: usize, left: u64) -> usize
    ensures { result ≡ min (width * left) (size - width) }
{
    places(width, left, size.saturating_sub(width))
}

// Moves `left` slots of a width up by one slot.
#[tactic(auto, using(crate::proofs::Shifting::shift_copied, crate::proofs::Shifting::shift_none))]
fn shift<T: Copy>(list: &mut [T], width: usize, left: u64)
    ensures { list.new ≡ shifted width (width * left) list.old }
{
    let count = movable(list.len(), width, left);
    if 0 < count {
        list.copy_within(width..width + count, 0);
    }
}

// The oldest frame leaves, and `left` others move up, in slots of this width.
pub fn leave(ends: &mut [u64], slots: &mut [u8], width: usize, left: u64)
    ensures { (ends.new ≡ shifted 1 left ends.old)
        × (slots.new ≡ shifted width (width * left) slots.old) }
{
    shift(ends, 1, left);
    shift(slots, width, left);
}
