// Which of document 01's refusals a record of the bench meets, once what it asks about is known: a file a kind, each trying its
// refusals in document 01's order and refusing by the first that holds.
#![tactic(auto)]

ghost use Rattle.std.specs.Prelude.{◌≡◌};
ghost use Rattle.decisions.specs.Chains.{length_outside};

pub mod kind_01;
pub mod kind_02;
pub mod kind_04;
pub mod kind_05;
pub mod kinds_03_06;

// The fewest octets of a frame.
const LEAST_LENGTH: u64 = 64;

// How many frames may be under way in one direction.
pub const MOST_UNDER_WAY: u64 = 128;

// 33: a length outside 64 to M.
#[tactic(auto, using(ground::proofs::Tests::tests), unfolding(ground::specs::Pick::pick, crate::specs::Chains::length_outside))]
pub fn length_outside(largest: u64, length: u64) -> bool
    ensures { result ≡ length_outside largest length }
{
    length < LEAST_LENGTH || largest < length
}
