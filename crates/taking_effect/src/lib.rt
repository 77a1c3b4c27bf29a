// Kind 06 of the bench: a PFC frame takes effect at A. Arrays of any size are taken.
#![tactic(auto)]

ghost use Rattle.std.specs.Prelude.{◌≡◌, take};
ghost use Rattle.refusals.specs.Refusals.{number_of, refused_or};
ghost use Rattle.frame.specs.Read.{verdict};
ghost use Rattle.bench_meaning.specs.Step.{address_a, effect_of};
ghost use Rattle.bench_state.specs.Answered.{ended_in, Left};
ghost use Rattle.taking_effect.specs.Effect.{effect_leaves};

use bench_state::Bench;
use frame::Request;
use head::Head;
use recorder::Watch;
use refusals::Refusal;
use rows::Direction;

// A's own address.
const ADDRESS_A: [u8; 6] = [0x02, 0x00, 0x00, 0x00, 0x00, 0x0A];

// The octets of a PFC frame's slot.
const PFC_WIDTH: usize = 60;

// What the octets in the first slot are, read as A reads a frame.
fn read_first(watch: Watch, slots: &[u8]) -> Result<Option<Request>, Refusal>
    ensures { result ≡ verdict (take 60 slots.now) watch.settings.largest address_a }
{
    if slots.len() < PFC_WIDTH {
        return frame::read(slots, watch.settings.largest, ADDRESS_A);
    }
    frame::read(&slots[..60], watch.settings.largest, ADDRESS_A)
}

// What a PFC frame does at A: a request is taken, anything else changes nothing.
#[tactic(auto, unfolding(bench_meaning::specs::Step::effect_of))]
fn effect(found: Result<Option<Request>, Refusal>, head: Head) -> Head
    ensures { result ≡ effect_of found head }
{
    match found {
        Ok(Some(request)) => head.taken(request.e, request.times),
        _ => head,
    }
}

// Kind 06: the oldest PFC frame takes effect at A.
#[tactic(auto, using(bench_state::proofs::Ended::ended_some), unfolding(refusals::specs::Refusals::refused_or, ground::specs::Pick::pick))]
pub fn take_effect(
    watch: Watch,
    bench: Bench,
    ends: &mut [u64],
    slots: &mut [u8],
) -> Result<Bench, Refusal>
    ensures number { number_of result ≡ ended_in bench.to_a.count ends.old bench.clock.0 }
    ensures answer { result ≡ refused_or (ended_in bench.to_a.count ends.old bench.clock.0)
        (effect_leaves watch bench slots.old) }
    ensures lent { Left (ended_in bench.to_a.count ends.old bench.clock.0) bench.to_a 60
        ends.old slots.old ends.new slots.new }
{
    bench_state::may_leave(ends, bench.to_a, bench.clock)?;
    let head = effect(read_first(watch, slots), bench.head);
    let left = bench.to_a.count - 1;
    rows::leave(ends, slots, PFC_WIDTH, left);
    let others = Direction {
        count: left,
        ..bench.to_a
    };
    Ok(Bench {
        head,
        to_a: others,
        ..bench
    })
}
