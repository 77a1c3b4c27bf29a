// How the code holds the bench's state, and what its kinds ask of a direction.
#![tactic(auto)]

ghost use Rattle.std.specs.Prelude.{◌≡◌};
ghost use Rattle.refusals.specs.Refusals.{number_of, refused_or};
ghost use Rattle.bench_state.specs.Answered.{busy_until, ended_in};

use head::Head;
use marks::Marks;
use refusals::Refusal;
use rows::Direction;
use units::OctetTimes;

// What goes by value through every step: the clock, both stations and both directions; data frames go to B, PFC frames to A. The
// numbers of the recorder's rooms and the frames under way stand in lent arrays.
#[derive(Clone, Copy)]
pub struct Bench {
    pub clock: OctetTimes,
    pub head: Head,
    pub marks: Marks,
    pub to_b: Direction,
    pub to_a: Direction,
}

// Whether the wire of a direction is busy.
pub fn is_busy(direction: Direction, clock: OctetTimes) -> bool
    ensures { result ≡ busy_until direction.free.0 clock.0 }
{
    clock.0 < direction.free.0
}

// 37 of a direction: no frame is under way, or the oldest one's wire time has not ended.
#[tactic(auto, unfolding(ground::specs::Pick::pick, crate::specs::Answered::ended_in, decisions::specs::Chains::arrive_number))]
pub fn may_leave(ends: &[u64], direction: Direction, clock: OctetTimes) -> Result<(), Refusal>
    ensures number { number_of result ≡ ended_in direction.count ends.now clock.0 }
    ensures answer { result ≡ refused_or (ended_in direction.count ends.now clock.0) tt }
{
    let oldest = rows::oldest(ends, direction.count);
    decisions::kinds_03_06::may_arrive(moments::is_ahead(oldest, clock))
}
