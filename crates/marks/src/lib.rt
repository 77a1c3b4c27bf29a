// Station B's marks (document 01, "Room watching at B"): for which priorities pause is wanted, since when a PFC frame is due, and what it
// carries. They know nothing of the rooms that set them.
#![tactic(auto)]

ghost use Rattle.std.specs.Prelude.{◌≡◌, ◌<◌};
ghost use Rattle.marks.specs.Marks.{fresh_marks, with_mark, refresh_of, started_at, with_due, time_for, times_for};

use moments::Moment;
use units::OctetTimes;

// For which priorities pause is wanted, since when a PFC frame is due, when the last one started, and how many were sent, modulo 2^32.
#[derive(Clone, Copy)]
pub struct Marks {
    pub wanted: [bool; 8],
    pub due: Moment,
    pub last: Moment,
    pub sent: u32,
}

impl Marks {
    // The marks at the start: nothing wanted, no PFC frame due or started.
    pub fn fresh() -> Marks
        ensures { result ≡ fresh_marks }
    {
        Marks {
            wanted: [false; 8],
            due: None,
            last: None,
            sent: 0,
        }
    }
}

// The marks with this one at a priority: a PFC frame becomes due where it changed. A number above 7 has no mark and changes nothing.
#[tactic(auto, using(crate::proofs::MarkLaws::mark_put, crate::proofs::MarkLaws::no_mark_put), unfolding(crate::specs::Marks::differ))]
pub fn with_mark(marks: Marks, priority: u8, wanted: bool, clock: OctetTimes) -> Marks
    ensures { result ≡ with_mark marks priority wanted clock.0 }
{
    let n = usize::from(priority);
    let mut marked = marks.wanted;
    let Some(was) = marked.get(n).copied() else {
        return marks;
    };
    let due = moments::due_on(was != wanted, clock, marks.due);
    marked[n] = wanted;
    Marks {
        wanted: marked,
        due,
        ..marks
    }
}

// The moment from which the refresh makes a PFC frame due, while some priority is wanted.
#[tactic(auto, unfolding(crate::specs::Marks::refresh_of, ground::specs::Pick::pick))]
pub fn refresh_of(marks: Marks, refresh: OctetTimes) -> Moment
    ensures { result ≡ refresh_of refresh.0 marks }
{
    if octets::some_of(marks.wanted) {
        moments::refresh_from(marks.last, refresh)
    } else {
        None
    }
}

// The marks once a PFC frame started: none is due any more, and one more was sent.
#[tactic(auto, unfolding(crate::specs::Marks::started_at))]
pub fn started(marks: Marks, clock: OctetTimes) -> Marks
    ensures { result ≡ started_at marks clock.0 }
{
    Marks {
        due: None,
        last: Some(clock),
        sent: marks.sent.wrapping_add(1),
        ..marks
    }
}

// The marks with another due moment.
#[tactic(auto, unfolding(crate::specs::Marks::with_due))]
pub fn with_due(marks: Marks, due: Moment) -> Marks
    ensures { result ≡ with_due marks due }
{
    Marks { due, ..marks }
}

// The time that the PFC frame carries for a priority below 8.
#[tactic(auto, unfolding(crate::specs::Marks::time_for, ground::specs::Pick::pick))]
fn time_for(marks: Marks, enabled: u8, pause: u16, n: usize) -> u16
    requires { n < 8 }
    ensures { result ≡ time_for enabled pause marks n }
{
    if octets::is_set(enabled, n as u8) && marks.wanted[n] {
        pause
    } else {
        0
    }
}

// The eight times of the PFC frame as the marks stand: the pause time T where wanted and 0 elsewhere.
#[tactic(auto, using(ground::proofs::Eight::eight_is), unfolding(ground::specs::Pick::pick, crate::specs::Marks::times_for))]
pub fn times_for(marks: Marks, enabled: u8, pause: u16) -> [u16; 8]
    ensures { result ≡ times_for enabled pause marks }
{
    std::array::from_fn(|n| time_for(marks, enabled, pause, n))
}
