// The choice at station A: which class queue sends next, by the priority at each queue's front and what is paused.
#![tactic(auto)]

ghost use Rattle.std.specs.Prelude.{◌≡◌, ◌<◌};
ghost use Rattle.ground.specs.Eight.{eight, some};
ghost use Rattle.ground.specs.First.{first_of};
ghost use Rattle.refusals.specs.Refusals.{number_of, refused_or};
ghost use Rattle.choice.specs.Choice.{choice, choice_at, choosing_order, highest, is_misplaced, may_go, order_by, some_above};

use head::Head;
use refusals::Refusal;

// The highest class whose front is present and not paused; None where no class has one. fronts has the front of each class queue, a priority
// 0 to 7 or 8 for an empty queue; map the class of each priority; paused the paused mark of each priority. Refused by 22, 20, 21.
pub fn choose(fronts: [u8; 8], map: [u8; 8], paused: [bool; 8]) -> Result<Option<u8>, Refusal>
    ensures number { number_of result ≡ first_of (choosing_order fronts map) }
    ensures answer { result ≡ choice fronts map paused }
{
    let wild = some_above(map, 7);
    let high = some_above(fronts, 8);
    refused(wild, high, some_misplaced(fronts, map))?;
    Ok(highest_free(fronts, paused))
}

// The same of a head, by its own timers: a priority is paused while its timer is above zero.
pub fn choose_at(head: Head, fronts: [u8; 8], map: [u8; 8]) -> Result<Option<u8>, Refusal>
    ensures number { number_of result ≡ first_of (choosing_order fronts map) }
    ensures answer { result ≡ choice_at head fronts map }
{
    choose(fronts, map, head.marks())
}

// Refuses by the first of 22, 20 and 21 that holds: by whether a map entry is above 7, a front above 8, a front misplaced.
#[tactic(auto, unfolding(crate::proofs::Refusals::refused_or, crate::proofs::Refusals::numbered_in, ground::specs::Pick::pick, ground::specs::First::first_of))]
fn refused(wild: bool, high: bool, misplaced: bool) -> Result<(), Refusal>
    ensures { result ≡ refused_or (first_of (order_by wild high misplaced)) tt }
{
    if wild {
        return Err(Refusal::ClassAbove);
    }
    if high {
        return Err(Refusal::FrontAbove);
    }
    if misplaced {
        return Err(Refusal::FrontMisplaced);
    }
    Ok(())
}

// Whether one of eight entries is above a limit.
fn some_above(entries: [u8; 8], limit: u8) -> bool
    ensures { result ≡ some_above limit entries }
{
    entries.iter().any(|entry| *entry > limit)
}

// Whether the front of a class is present and its map gives another class.
fn is_misplaced(fronts: [u8; 8], map: [u8; 8], class: u8) -> bool
    requires { class < 8 }
    ensures { result ≡ is_misplaced fronts map class }
{
    let front = usize::from(fronts[usize::from(class)]);
    front < 8 && map[front] != class
}

// Whether that holds of some class.
fn some_misplaced(fronts: [u8; 8], map: [u8; 8]) -> bool
    ensures { result ≡ some (eight (is_misplaced fronts map)) }
{
    (0..8).any(|class| is_misplaced(fronts, map, class))
}

// Whether the front of a class is present and not paused.
fn may_go(fronts: [u8; 8], paused: [bool; 8], class: u8) -> bool
    requires { class < 8 }
    ensures { result ≡ may_go fronts paused class }
{
    let front = usize::from(fronts[usize::from(class)]);
    front < 8 && !paused[front]
}

// The highest class that may go, or none.
fn highest_free(fronts: [u8; 8], paused: [bool; 8]) -> Option<u8>
    ensures { result ≡ highest (may_go fronts paused) 8 }
{
    (0..8).rev().find(|class| may_go(fronts, paused, *class))
}
