// Kinds 03 and 06: the oldest frame of a direction arrives.
ghost use Rattle.std.specs.Prelude.{◌≡◌};
ghost use Rattle.ground.specs.First.{first_of};
ghost use Rattle.refusals.specs.Refusals.{number_of, refused_or};
ghost use Rattle.decisions.specs.Chains.{arrive_order};

use refusals::Refusal;

// 37.
#[tactic(auto, unfolding(crate::proofs::Order::refused_or, crate::proofs::Order::numbered_in, ground::specs::Pick::pick, ground::specs::First::first_of))]
pub fn may_arrive(none_ended: bool) -> Result<(), Refusal>
    ensures number { number_of result ≡ first_of (arrive_order none_ended) }
    ensures answer { result ≡ refused_or (first_of (arrive_order none_ended)) tt }
{
    if none_ended {
        return Err(Refusal::NoneEnded);
    }
    Ok(())
}
