// What the bench means: definitions alone (specs/), with the types that a run answers. No function stands here; the crates that walk,
// step and run promise to equal these definitions.
#![tactic(auto)]

use units::OctetTimes;

// All that is printed: the records accepted after the settings, the time, the refusal or 0 and its record number, the enabled
// priorities, and for each priority what is held, what was dropped, the worst and A's timer.
#[derive(Clone, Copy)]
pub struct Report {
    pub steps: u64,
    pub time: OctetTimes,
    pub refusal: u8,
    pub at: u64,
    pub enabled: u8,
    pub held: [u64; 8],
    pub dropped: [u64; 8],
    pub worst: [u64; 8],
    pub timers: [u16; 8],
}
