// One record of the bench.
ghost use Rattle.std.specs.Prelude.{◌≡◌, length};
ghost use Rattle.records.specs.Records.{decoded};
ghost use Rattle.refusals.specs.Refusals.{number_of, refused_or};
ghost use Rattle.bench_state.specs.Answered.{bench_after};
ghost use Rattle.bench_memory.specs.Memory.{memory_of, bench_of, Lent, fits_in};
ghost use Rattle.bench_memory.specs.Answers.{Answers, step_number, step_memory};

use bench_state::Bench;
use recorder::Watch;
use records::Record;
use refusals::Refusal;

// Whether arrays of these sizes have the 128 places of a direction, its octets in slots of this width, and no more are under way.
#[tactic(auto, using(ground::proofs::Tests::tests), unfolding(bench_memory::specs::Memory::fits_in, ground::specs::Pick::pick))]
fn fits(count: u64, ends: usize, slots: usize, width: usize) -> bool
    ensures { result ≡ fits_in width count ends slots }
{
    count <= 128 && 128 <= ends && width <= slots / 128
}

// One record on arrays that have the places.
fn asked(
    watch: Watch,
    bench: Bench,
    numbers: &mut [[u64; 4]; 8],
    data_ends: &mut [u64],
    data_slots: &mut [u8],
    pfc_ends: &mut [u64],
    pfc_slots: &mut [u8],
    record: &[u8],
) -> Result<Bench, Refusal>
    requires { Lent (memory_of bench numbers.old data_ends.old data_slots.old pfc_ends.old pfc_slots.old) }
    ensures { Answers watch
        (memory_of bench numbers.old data_ends.old data_slots.old pfc_ends.old
        pfc_slots.old)
        (decoded «record».now) result
        (memory_of (bench_after result bench) numbers.new data_ends.new data_slots.new pfc_ends.new
        pfc_slots.new) }
{
    let asked = records::decode(record)?;
    match asked {
        Record::Wait(n) => waiting::wait_for(watch, bench, data_ends, pfc_ends, n),
        Record::StartData(priority, length) => {
            starting::start_data(watch, bench, data_ends, data_slots, priority, length)
        }
        Record::Arrive => arriving::arrive(watch, bench, numbers, data_ends, data_slots),
        Record::StartOther(length) => starting::start_other(watch, bench, length),
        Record::StartPfc => asking::start_pfc(watch, bench, pfc_ends, pfc_slots),
        Record::TakeEffect => taking_effect::take_effect(watch, bench, pfc_ends, pfc_slots),
        Record::TakeOctets(priority, count) => {
            arriving::take_octets(watch, bench, numbers, priority, count)
        }
    }
}

// One record of the bench: its refusal, or the state after it. The arrays are lent, so that the rooms and the frames under way are not
// copied: of 128 places each, the slots of data frames 3 octets wide and those of PFC frames 60. In arrays that lack the places, or with
// more than 128 frames said to be under way, nothing changes and 36 is answered.
pub fn step(
    watch: Watch,
    bench: Bench,
    numbers: &mut [[u64; 4]; 8],
    data_ends: &mut [u64],
    data_slots: &mut [u8],
    pfc_ends: &mut [u64],
    pfc_slots: &mut [u8],
    record: &[u8],
) -> Result<Bench, Refusal>
    ensures number { number_of result ≡ step_number watch
        (memory_of bench numbers.old data_ends.old data_slots.old pfc_ends.old
        pfc_slots.old)
        «record».now }
    ensures answer { result ≡ refused_or
        (step_number watch
        (memory_of bench numbers.old data_ends.old data_slots.old pfc_ends.old
        pfc_slots.old)
        «record».now)
        (bench_of (step_memory watch
        (memory_of bench numbers.old data_ends.old data_slots.old pfc_ends.old
        pfc_slots.old)
        «record».now)) }
    ensures memory { memory_of (bench_after result bench) numbers.new data_ends.new data_slots.new pfc_ends.new
        pfc_slots.new
        ≡ step_memory watch
        (memory_of bench numbers.old data_ends.old data_slots.old pfc_ends.old
        pfc_slots.old)
        «record».now }
{
    if !fits(bench.to_b.count, data_ends.len(), data_slots.len(), 3) {
        return Err(Refusal::UnderWay);
    }
    if !fits(bench.to_a.count, pfc_ends.len(), pfc_slots.len(), 60) {
        return Err(Refusal::UnderWay);
    }
    asked(
        watch, bench, numbers, data_ends, data_slots, pfc_ends, pfc_slots, record,
    )
}
