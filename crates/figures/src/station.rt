// Station A: quanta that pass, requests that are taken, and the choice.
use crate::turns;
use head::Head;
use units::Quanta;

// The timer of the priority that a turn looks at.
fn timer_of(head: Head, turn: u64) -> u64 {
    u64::from(head.timers[(turn % 8) as usize])
}

// A quantum passes; where the timers have run down they are set anew before it.
fn quantum(head: Head, turn: u64) -> Head {
    if turn % 65_536 == 0 {
        let set = head.taken(255, turns::times(65_535));
        return set.passed(Quanta(1));
    }
    head.passed(Quanta(1))
}

// A step turn after turn, at a head that starts fresh. (By way of `next`: `head = step(head, turn)` took twice the instructions and more.)
fn timers<F: Fn(Head, u64) -> Head>(turns: u64, step: F) -> u64
    requires { F.IsAlwaysCallable step }
{
    let mut head = Head::fresh(255);
    let mut sum: u64 = 0;
    for turn in 0..turns {
        let next = step(head, turn);
        head = next;
        sum = turns::add(sum, timer_of(next, turn));
    }
    turns::add(sum, u64::from(head.indications))
}

// A quantum a turn.
pub(crate) fn single_quanta(turns: u64) -> u64 {
    timers(turns, quantum)
}

// A request and a count of quanta a turn.
pub(crate) fn many_quanta(turns: u64, count: Quanta) -> u64 {
    timers(turns, |head, turn| {
        head.taken(255, turns::times(turn)).passed(count)
    })
}

// The count of work 08 stands in the material, so that no compiler knows it.
pub(crate) fn counted_quanta(turns: u64, material: &[u8]) -> u64 {
    if material.len() < 8 {
        return 0;
    }
    many_quanta(turns, Quanta(octets::wide_at(material, 0)))
}

// Requests for some of the priorities are taken.
pub(crate) fn requests(turns: u64) -> u64 {
    timers(turns, |head, turn| {
        head.taken((turn % 256) as u8, turns::times(turn))
    })
}

// The front of each class, present where its bit of the turn is one: its own number as a priority, or 8 for none.
fn fronts(turn: u64) -> [u8; 8] {
    let present = octets::bits((turn % 256) as u8);
    std::array::from_fn(|class| if present[class] { class as u8 } else { 8 })
}

// The class of priority 0: out of range at every sixteenth turn.
fn first_class(turn: u64) -> u8 {
    if turn % 16 == 15 { 8 } else { 0 }
}

fn chosen(turn: u64) -> u64 {
    let map = [first_class(turn), 1, 2, 3, 4, 5, 6, 7];
    let answer = choice::choose(fronts(turn), map, octets::bits((turn / 256 % 256) as u8));
    match answer {
        Ok(Some(class)) => 100 + u64::from(class),
        Ok(None) => 0,
        Err(refusal) => u64::from(refusal.number()),
    }
}

pub(crate) fn choices(turns: u64) -> u64 {
    (0..turns).map(chosen).fold(0, turns::add)
}
