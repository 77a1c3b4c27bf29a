// Kinds 03 and 07 of the bench: a data frame reaches B, and B's disk takes octets. Arrays of any size are taken: octets past their end count
// as 0.
#![tactic(auto)]

ghost use Rattle.std.specs.Prelude.{◌≡◌};
ghost use Rattle.refusals.specs.Refusals.{number_of, refused_or};
ghost use Rattle.recorder.specs.Watching.{recorder_of};
ghost use Rattle.bench_state.specs.Answered.{ended_in, if_accepted, Left};
ghost use Rattle.arriving.specs.Arriving.{brought_by, arrival_leaves, taking_by, taking_number, taking_marks};

use bench_state::Bench;
use marks::Marks;
use recorder::Watch;
use refusals::Refusal;
use rows::Direction;

// The octets of a data frame's slot: the body that started it.
const DATA_WIDTH: usize = 3;

// The recorder's marks once the data frame in the first slot arrived.
#[tactic(auto, unfolding(ground::specs::Pick::pick, crate::specs::Arriving::brought_by, recorder::specs::Watching::arrived_at))]
fn brought(watch: Watch, bench: Bench, numbers: &mut [[u64; 4]; 8], slots: &[u8]) -> Marks
    ensures { recorder_of numbers.new result ≡ brought_by watch bench numbers.old slots.now }
{
    let priority = octets::octet_at(slots, 0);
    let length = octets::word_at(slots, 1);
    recorder::arrived(
        numbers,
        bench.marks,
        watch.settings.enabled,
        recorder::limits_of(watch, priority),
        priority,
        u64::from(length),
        bench.clock,
    )
}

// Kind 03: the oldest data frame reaches B.
#[tactic(auto, using(bench_state::proofs::Ended::ended_some), unfolding(refusals::specs::Refusals::refused_or, ground::specs::Pick::pick))]
pub fn arrive(
    watch: Watch,
    bench: Bench,
    numbers: &mut [[u64; 4]; 8],
    ends: &mut [u64],
    slots: &mut [u8],
) -> Result<Bench, Refusal>
    ensures number { number_of result ≡ ended_in bench.to_b.count ends.old bench.clock.0 }
    ensures answer { result ≡ refused_or (ended_in bench.to_b.count ends.old bench.clock.0)
        (arrival_leaves bench (brought_by watch bench numbers.old slots.old)) }
    ensures rooms { numbers.new ≡ if_accepted (ended_in bench.to_b.count ends.old bench.clock.0)
        (brought_by watch bench numbers.old slots.old).rooms numbers.old }
    ensures lent { Left (ended_in bench.to_b.count ends.old bench.clock.0) bench.to_b 3
        ends.old slots.old ends.new slots.new }
{
    bench_state::may_leave(ends, bench.to_b, bench.clock)?;
    let marks = brought(watch, bench, numbers, slots);
    let left = bench.to_b.count - 1;
    rows::leave(ends, slots, DATA_WIDTH, left);
    let others = Direction {
        count: left,
        ..bench.to_b
    };
    Ok(Bench {
        marks,
        to_b: others,
        ..bench
    })
}

// The recorder's marks once the disk took octets.
#[tactic(auto, unfolding(crate::specs::Arriving::taking_number, recorder::specs::Watching::taking_refusal))]
fn taken(
    watch: Watch,
    bench: Bench,
    numbers: &mut [[u64; 4]; 8],
    priority: u8,
    count: u16,
) -> Result<Marks, Refusal>
    ensures number { number_of result ≡ taking_number watch bench numbers.old priority count }
    ensures answer { result ≡ refused_or (taking_number watch bench numbers.old priority count)
        (taking_by watch bench numbers.old priority count).marks }
    ensures rooms { numbers.new ≡ (taking_by watch bench numbers.old priority count).rooms }
{
    recorder::taken(
        numbers,
        bench.marks,
        watch.settings.enabled,
        recorder::limits_of(watch, priority),
        priority,
        u64::from(count),
        bench.clock,
    )
}

// Kind 07: B's disk takes octets.
#[tactic(auto, unfolding(refusals::specs::Refusals::refused_or, ground::specs::Pick::pick))]
pub fn take_octets(
    watch: Watch,
    bench: Bench,
    numbers: &mut [[u64; 4]; 8],
    priority: u8,
    count: u16,
) -> Result<Bench, Refusal>
    ensures number { number_of result ≡ taking_number watch bench numbers.old priority count }
    ensures answer { result ≡ refused_or (taking_number watch bench numbers.old priority count)
        (taking_marks bench (taking_by watch bench numbers.old priority count)) }
    ensures rooms { numbers.new ≡ (taking_by watch bench numbers.old priority count).rooms }
{
    let marks = taken(watch, bench, numbers, priority, count)?;
    Ok(Bench { marks, ..bench })
}
