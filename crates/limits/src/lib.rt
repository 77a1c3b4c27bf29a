// What document 01 allows of a largest frame, of a delay and of a path: each number by name, once.
#![tactic(auto)]

ghost use Rattle.std.specs.Prelude.{◌≡◌};
ghost use Rattle.limits.specs.Limits.{refused13};

use units::BitTimes;

// The largest frame M, in octets with FCS: 64 to 9,216.
pub const LEAST_M: u64 = 64;

pub const LARGEST_M: u64 = 9_216;

// A generation or station delay.
pub const LARGEST_DELAY: BitTimes = BitTimes(1_048_576);

// The request path and the data path.
pub const LARGEST_PATH: BitTimes = BitTimes(134_217_728);

// 13: M is outside its range.
#[tactic(auto, unfolding(ground::specs::Pick::pick))]
pub fn is_outside_m(largest: u64) -> bool
    ensures { result ≡ refused13 largest }
{
    !(LEAST_M..=LARGEST_M).contains(&largest)
}
