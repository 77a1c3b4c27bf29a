// A wait, walked octet time by octet time: only what time changes is carried, the clock and A's timers.
#![tactic(auto)]

ghost use Rattle.std.specs.Prelude.{◌≡◌, ◌+◌, ◌<◌};
ghost use Rattle.walk.specs.Walk.{farthest, is_near, walked_on, walked_by};
ghost use Rattle.walk.specs.Pacing.{head_at, paced_by, ticked};

use head::Head;
use moments::Moment;
use units::{OctetTimes, Quanta};

// A walk stays below this moment, 2^63: far above 2^40, and its sums fit a word.
const FARTHEST: u64 = 9_223_372_036_854_775_808;

// What time changes.
#[derive(Clone, Copy)]
pub struct Walk {
    pub clock: OctetTimes,
    pub head: Head,
    pub due: Moment,
}

// What is carried from octet time to octet time: the clock and A's timers. Since when PFC is due is told by the refresh's own moment, and
// need not be tried on the way.
#[derive(Clone, Copy)]
struct Pace {
    clock: OctetTimes,
    head: Head,
}

// The head once time has reached a moment: a quantum passes at each positive multiple of 64.
#[tactic(auto, unfolding(crate::specs::Pacing::head_at, ground::specs::Pick::pick))]
fn head_at(head: Head, clock: OctetTimes) -> Head
    ensures { result ≡ head_at head clock.0 }
{
    if clock.0 % units::QUANTUM.0 == 0 {
        head.passed(Quanta(1))
    } else {
        head
    }
}

// One octet time passes.
#[tactic(auto, unfolding(crate::specs::Pacing::ticked))]
fn tick(pace: Pace) -> Pace
    requires { pace.clock.0 < farthest }
    ensures { result ≡ ticked pace }
{
    let clock = OctetTimes(pace.clock.0 + 1);
    Pace {
        clock,
        head: head_at(pace.head, clock),
    }
}

// n octet times pass, one after the other.
#[tactic(auto, using(crate::proofs::Walking::pace_more), unfolding(crate::specs::Pacing::paced_by))]
fn paced(start: Pace, n: u64) -> Pace
    requires { start.clock.0 + n < farthest }
    ensures { result ≡ paced_by start n }
{
    let mut pace = start;
    for _i in 0..n {
        pace = tick(pace);
    }
    pace
}

// n octet times pass; where the refresh fell due on the way, PFC is due since its own moment.
#[tactic(auto, unfolding(crate::specs::Pacing::paced_by))]
fn walked_on(walk: Walk, refresh: Moment, n: u64) -> Walk
    requires { walk.clock.0 + n < farthest }
    ensures { result ≡ walked_on walk refresh n }
{
    let start = Pace {
        clock: walk.clock,
        head: walk.head,
    };
    let Pace { clock, head } = paced(start, n);
    Walk {
        clock,
        head,
        due: moments::due_by(refresh, clock, walk.due),
    }
}

// Whether n octet times on from a moment are below the farthest that a walk goes.
fn is_near(clock: OctetTimes, n: u64) -> bool
    ensures { result ≡ is_near clock.0 n }
{
    clock.0.checked_add(n).is_some_and(|end| end < FARTHEST)
}

// n octet times pass, octet time by octet time; a walk that would go too far stays where it is.
#[tactic(auto, unfolding(crate::specs::Walk::walked_by, ground::specs::Pick::pick))]
pub fn walked(walk: Walk, refresh: Moment, n: u64) -> Walk
    ensures { result ≡ walked_by walk refresh n }
{
    if is_near(walk.clock, n) {
        walked_on(walk, refresh, n)
    } else {
        walk
    }
}
