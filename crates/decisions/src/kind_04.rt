// Kind 04: B starts some other frame.
ghost use Rattle.std.specs.Prelude.{◌≡◌};
ghost use Rattle.ground.specs.First.{first_of};
ghost use Rattle.refusals.specs.Refusals.{number_of, refused_or};
ghost use Rattle.decisions.specs.Chains.{start_other_order};

use refusals::Refusal;

// 33, 34, 38.
#[tactic(auto, unfolding(crate::proofs::Order::refused_or, crate::proofs::Order::numbered_in, ground::specs::Pick::pick, ground::specs::First::first_of))]
pub fn may_start_other(outside: bool, busy: bool, late: bool) -> Result<(), Refusal>
    ensures number { number_of result ≡ first_of (start_other_order outside busy late) }
    ensures answer { result ≡ refused_or (first_of (start_other_order outside busy late)) tt }
{
    if outside {
        return Err(Refusal::Length);
    }
    if busy {
        return Err(Refusal::WireBusy);
    }
    if late {
        return Err(Refusal::OtherLate);
    }
    Ok(())
}
