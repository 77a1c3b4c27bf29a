// Station A, the camera head: the eight pause timers that PFC requests set. A state goes by value: a function takes one and answers with
// one, on any input.
#![tactic(auto)]

ghost use Rattle.std.specs.Prelude.{◌≡◌, min};
ghost use Rattle.ground.specs.Eight.{eight};
ghost use Rattle.head.specs.Timers.{after_quanta, after_request, is_paused, lowered, start};
ghost use Rattle.head.specs.Marks.{replaced_all, replaced_if};

use units::Quanta;

// The receiver's state: the priorities that PFC is enabled for (bit n is priority n), the timers in quanta, and the count of
// indications received.
#[derive(Clone, Copy)]
pub struct Head {
    pub enabled: u8,
    pub timers: [u16; 8],
    pub indications: u32,
}

impl Head {
    // A head at the start: all timers zero, no indication counted.
    pub fn fresh(enabled: u8) -> Head
        ensures { result ≡ start enabled }
    {
        Head {
            enabled,
            timers: [0; 8],
            indications: 0,
        }
    }

    // A request is taken: it replaces the timers that it names and PFC is enabled for, and counts as an indication, whatever it
    // names.
    #[tactic(auto, using(crate::proofs::Marks::replaced_all_lem))]
    pub fn taken(self, e: u8, times: [u16; 8]) -> Head
        ensures { result ≡ after_request self e times }
    {
        let enabled = octets::bits(self.enabled);
        Head {
            timers: replaced(octets::bits(e), enabled, times, self.timers),
            indications: self.indications.wrapping_add(1), // from 4,294,967,295 back to 0
            ..self
        }
    }

    // A count of quanta passes, any count: each timer is lowered by it, not below zero.
    pub fn passed(self, count: Quanta) -> Head
        ensures { result ≡ after_quanta self count.0 }
    {
        Head {
            timers: lowered_by(self.timers, count.0),
            ..self
        }
    }

    // Whether a priority is paused. A priority above 7 has no timer and is not.
    pub fn is_paused(self, priority: u8) -> bool
        ensures { result ≡ is_paused self priority }
    {
        self.timers
            .get(usize::from(priority))
            .is_some_and(|timer| *timer > 0)
    }

    // The paused marks of the eight priorities.
    pub fn marks(self) -> [bool; 8]
        ensures { result ≡ eight (is_paused self) }
    {
        std::array::from_fn(|n| self.timers[n] > 0)
    }
}

// A timer after a request that names it or not, where PFC is enabled for it or not.
fn replaced_if(e: bool, enabled: bool, time: u16, timer: u16) -> u16
    ensures { result ≡ replaced_if e enabled time timer }
{
    if e && enabled { time } else { timer }
}

// The timers after a request.
fn replaced(e: [bool; 8], enabled: [bool; 8], times: [u16; 8], timers: [u16; 8]) -> [u16; 8]
    ensures { result ≡ replaced_all e enabled times timers }
{
    std::array::from_fn(|n| replaced_if(e[n], enabled[n], times[n], timers[n]))
}

// A count of quanta in the width of a timer. No timer is above 65,535, so that every count from there on lowers it to zero.
fn within_a_timer(count: u64) -> u16
    ensures { result ≡ min count 65535 }
{
    u16::try_from(count).unwrap_or(u16::MAX)
}

// The timers after a count of quanta in that width, in one stroke.
fn lowered_within(timers: [u16; 8], quanta: u16) -> [u16; 8]
    ensures { result ≡ lowered timers quanta }
{
    std::array::from_fn(|n| timers[n].saturating_sub(quanta))
}

// The timers after any count of quanta.
#[tactic(auto, using(crate::proofs::Lowered::lowered_by_least))]
fn lowered_by(timers: [u16; 8], count: u64) -> [u16; 8]
    ensures { result ≡ lowered timers count }
{
    lowered_within(timers, within_a_timer(count))
}
