// Kind 02: A starts a data frame.
ghost use Rattle.std.specs.Prelude.{◌≡◌};
ghost use Rattle.ground.specs.First.{first_of};
ghost use Rattle.refusals.specs.Refusals.{number_of, refused_or};
ghost use Rattle.decisions.specs.Chains.{start_data_order};

use crate::MOST_UNDER_WAY;
use refusals::Refusal;

// 32, 33, 34, 35, 36.
#[tactic(auto, unfolding(crate::proofs::Order::refused_or, crate::proofs::Order::numbered_in, ground::specs::Pick::pick, ground::specs::First::first_of))]
pub fn may_start_data(
    priority: u8,
    outside: bool,
    busy: bool,
    paused: bool,
    count: u64,
) -> Result<(), Refusal>
    ensures number { number_of result ≡ first_of (start_data_order priority outside busy paused count) }
    ensures answer { result ≡ refused_or (first_of (start_data_order priority outside busy paused count)) tt }
{
    let above = 7 < priority;
    let full = MOST_UNDER_WAY <= count;
    if above {
        return Err(Refusal::PriorityAbove);
    }
    if outside {
        return Err(Refusal::Length);
    }
    if busy {
        return Err(Refusal::WireBusy);
    }
    if paused {
        return Err(Refusal::Paused);
    }
    if full {
        return Err(Refusal::UnderWay);
    }
    Ok(())
}
