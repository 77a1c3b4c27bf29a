// Kind 01: octet times pass.
ghost use Rattle.std.specs.Prelude.{◌≡◌};
ghost use Rattle.ground.specs.First.{first_of};
ghost use Rattle.refusals.specs.Refusals.{number_of, refused_or};
ghost use Rattle.decisions.specs.Chains.{wait_order};

use refusals::Refusal;

// Time may reach 2^40 octet times and go no further.
const LAST_MOMENT: u64 = 1_099_511_627_776;

// 41 of the moment that would be reached, 40.
#[tactic(auto, unfolding(crate::proofs::Order::refused_or, crate::proofs::Order::numbered_in, ground::specs::Pick::pick, ground::specs::First::first_of))]
pub fn may_wait(reached: u64, overrun: bool) -> Result<(), Refusal>
    ensures number { number_of result ≡ first_of (wait_order reached overrun) }
    ensures answer { result ≡ refused_or (first_of (wait_order reached overrun)) tt }
{
    let far = LAST_MOMENT < reached;
    if far {
        return Err(Refusal::TimeAbove);
    }
    if overrun {
        return Err(Refusal::Overrun);
    }
    Ok(())
}
