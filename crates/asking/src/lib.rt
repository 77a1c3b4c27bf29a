// Kind 05 of the bench: B starts the PFC frame that asks A to pause, or to go on. Arrays of any size are taken: what has no place in them is not
// written.
#![tactic(auto)]

ghost use Rattle.std.specs.Prelude.{◌≡◌};
ghost use Rattle.refusals.specs.Refusals.{number_of, refused_or};
ghost use Rattle.bench_meaning.specs.Step.{pfc_now};
ghost use Rattle.bench_state.specs.Answered.{Pushed};
ghost use Rattle.asking.specs.Asking.{pfc_number, pfc_end, pfc_joins};

use bench_state::Bench;
use recorder::Watch;
use refusals::Refusal;
use rows::Direction;

// The source of B's PFC frames.
const SOURCE_B: [u8; 6] = [0x02, 0x00, 0x00, 0x00, 0x00, 0x0B];

// Kind 05's refusals: 39, 34 and 36 in this order.
#[tactic(auto, unfolding(crate::specs::Asking::pfc_number, decisions::specs::Chains::start_pfc_number))]
fn may_start_pfc(bench: Bench) -> Result<(), Refusal>
    ensures number { number_of result ≡ pfc_number bench }
    ensures answer { result ≡ refused_or (pfc_number bench) tt }
{
    decisions::kind_05::may_start_pfc(
        moments::is_never(bench.marks.due),
        bench_state::is_busy(bench.to_a, bench.clock),
        bench.to_a.count,
    )
}

// The PFC frame as B sends it with the marks as they stand.
fn pfc_octets(watch: Watch, bench: Bench) -> [u8; 60]
    ensures { result ≡ pfc_now watch bench.marks }
{
    let times = marks::times_for(bench.marks, watch.settings.enabled, watch.settings.pause);
    let mut octets = [0u8; 60];
    // 60 octets, and a source without the group bit: nothing is refused
    let _ = frame_build::build(&mut octets, SOURCE_B, watch.settings.enabled, times);
    octets
}

// Kind 05: B starts the PFC frame, with the marks as they stand.
#[tactic(auto, using(crate::proofs::Room::pfc_room), unfolding(refusals::specs::Refusals::refused_or, ground::specs::Pick::pick))]
pub fn start_pfc(
    watch: Watch,
    bench: Bench,
    ends: &mut [u64],
    slots: &mut [u8],
) -> Result<Bench, Refusal>
    ensures number { number_of result ≡ pfc_number bench }
    ensures answer { result ≡ refused_or (pfc_number bench) (pfc_joins bench) }
    ensures lent { Pushed (pfc_number bench) bench.to_a (pfc_end bench.clock).0 (pfc_now watch bench.marks)
        ends.old slots.old ends.new slots.new }
{
    may_start_pfc(bench)?;
    let end = units::later(bench.clock, units::PFC_TIME);
    let octets = pfc_octets(watch, bench);
    rows::push(ends, slots, bench.to_a.count, end, &octets);
    let joined = Direction {
        free: end,
        count: bench.to_a.count + 1,
    };
    Ok(Bench {
        marks: marks::started(bench.marks, bench.clock),
        to_a: joined,
        ..bench
    })
}
