// Kind 05: B starts the PFC frame.
ghost use Rattle.std.specs.Prelude.{◌≡◌};
ghost use Rattle.ground.specs.First.{first_of};
ghost use Rattle.refusals.specs.Refusals.{number_of, refused_or};
ghost use Rattle.decisions.specs.Chains.{start_pfc_order};

use crate::MOST_UNDER_WAY;
use refusals::Refusal;

// 39, 34, 36.
#[tactic(auto, unfolding(crate::proofs::Order::refused_or, crate::proofs::Order::numbered_in, ground::specs::Pick::pick, ground::specs::First::first_of))]
pub fn may_start_pfc(undue: bool, busy: bool, count: u64) -> Result<(), Refusal>
    ensures number { number_of result ≡ first_of (start_pfc_order undue busy count) }
    ensures answer { result ≡ refused_or (first_of (start_pfc_order undue busy count)) tt }
{
    let full = MOST_UNDER_WAY <= count;
    if undue {
        return Err(Refusal::NotDue);
    }
    if busy {
        return Err(Refusal::WireBusy);
    }
    if full {
        return Err(Refusal::UnderWay);
    }
    Ok(())
}
