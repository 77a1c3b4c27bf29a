// Kind 01 of the bench: octet times pass, all that are asked or none.
#![tactic(auto)]

ghost use Rattle.std.specs.Prelude.{◌≡◌};
ghost use Rattle.refusals.specs.Refusals.{number_of};
ghost use Rattle.waiting.specs.Waiting.{walk_from, after_walk, overrun_by, late_after, waiting_number, waited_by};

use bench_state::Bench;
use moments::Moment;
use recorder::Watch;
use refusals::Refusal;
use units::OctetTimes;
use walk::Walk;

// A wait's walk from where the bench stands.
#[tactic(auto, unfolding(crate::specs::Waiting::walk_from))]
fn walk_from(watch: Watch, bench: Bench, n: u16) -> Walk
    ensures { result ≡ walk_from watch bench n }
{
    let start = Walk {
        clock: bench.clock,
        head: bench.head,
        due: bench.marks.due,
    };
    walk::walked(
        start,
        marks::refresh_of(bench.marks, watch.settings.refresh),
        u64::from(n),
    )
}

// 40: an arrival, or the start of a due PFC frame, would be later than its bound.
#[tactic(auto, unfolding(crate::specs::Waiting::overrun_by, ground::specs::Pick::pick))]
fn overrun(
    data: Moment,
    data_bound: OctetTimes,
    pfc: Moment,
    pfc_bound: OctetTimes,
    due: Moment,
    due_bound: OctetTimes,
    clock: OctetTimes,
) -> bool
    ensures { result ≡ overrun_by «data» data_bound.0 pfc pfc_bound.0 due due_bound.0 clock.0 }
{
    moments::past(data, data_bound, clock)
        || moments::past(pfc, pfc_bound, clock)
        || moments::past(due, due_bound, clock)
}

// 40: a bound is overrun where a walk ends. One that is overrun on the way stays overrun.
#[tactic(auto, unfolding(crate::specs::Waiting::late_after))]
fn late_after(watch: Watch, bench: Bench, ends: &[u64], pfc_ends: &[u64], walk: Walk) -> bool
    ensures { result ≡ late_after watch bench ends.now pfc_ends.now walk }
{
    overrun(
        rows::oldest(ends, bench.to_b.count),
        watch.kept.data,
        rows::oldest(pfc_ends, bench.to_a.count),
        watch.kept.request,
        walk.due,
        units::later(watch.kept.generation, watch.kept.wire),
        walk.clock,
    )
}

// The state where a walk ends.
#[tactic(auto, unfolding(crate::specs::Waiting::after_walk))]
fn after_walk(bench: Bench, walk: Walk) -> Bench
    ensures { result ≡ after_walk bench walk }
{
    Bench {
        clock: walk.clock,
        head: walk.head,
        marks: marks::with_due(bench.marks, walk.due),
        ..bench
    }
}

// n octet times pass, all of them or none: 41 and 40 in this order, else the state where the walk ends.
pub fn wait_for(
    watch: Watch,
    bench: Bench,
    ends: &[u64],
    pfc_ends: &[u64],
    n: u16,
) -> Result<Bench, Refusal>
    ensures number { number_of result ≡ waiting_number watch bench ends.now pfc_ends.now n }
    ensures answer { result ≡ waited_by watch bench ends.now pfc_ends.now n }
{
    let reached = units::later(bench.clock, OctetTimes(u64::from(n)));
    decisions::kind_01::may_wait(reached.0, false)?;
    let walk = walk_from(watch, bench, n);
    decisions::kind_01::may_wait(reached.0, late_after(watch, bench, ends, pfc_ends, walk))?;
    Ok(after_walk(bench, walk))
}
