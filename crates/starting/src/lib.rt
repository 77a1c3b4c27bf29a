// Kinds 02 and 04 of the bench: a data frame of A's or some other frame of B's starts. Arrays of any size are taken: what has no place in them
// is not written.
#![tactic(auto)]

ghost use Rattle.std.specs.Prelude.{◌≡◌};
ghost use Rattle.bench_meaning.specs.State.{data_octets};
ghost use Rattle.refusals.specs.Refusals.{number_of, refused_or};
ghost use Rattle.bench_state.specs.Answered.{Pushed};
ghost use Rattle.starting.specs.Starting.{data_number, other_number, data_end, data_joins, other_holds};

use bench_state::Bench;
use recorder::Watch;
use refusals::Refusal;
use rows::Direction;
use units::OctetTimes;

// The octets kept of a data frame: the body of the record that started it.
fn data_octets(priority: u8, length: u16) -> [u8; 3]
    ensures { result ≡ data_octets priority length }
{
    let [high, low] = octets::word_octets(length);
    [priority, high, low]
}

// When the wire time of a frame of this length ends, if it starts now.
#[tactic(auto, using(crate::proofs::Room::end_is), unfolding(ground::specs::Pick::pick))]
fn data_end(clock: OctetTimes, length: u16) -> OctetTimes
    ensures { result ≡ data_end clock length }
{
    units::later(clock, units::wire_time(u64::from(length)))
}

// Kind 02's refusals: 32, 33, 34, 35 and 36 in this order.
#[tactic(auto, unfolding(crate::specs::Starting::data_number, decisions::specs::Chains::start_data_number))]
fn may_start_data(watch: Watch, bench: Bench, priority: u8, length: u16) -> Result<(), Refusal>
    ensures number { number_of result ≡ data_number watch bench priority length }
    ensures answer { result ≡ refused_or (data_number watch bench priority length) tt }
{
    decisions::kind_02::may_start_data(
        priority,
        decisions::length_outside(watch.settings.largest, u64::from(length)),
        bench_state::is_busy(bench.to_b, bench.clock),
        bench.head.is_paused(priority),
        bench.to_b.count,
    )
}

// Kind 02: A starts a data frame.
#[tactic(auto, using(crate::proofs::Room::data_room), unfolding(refusals::specs::Refusals::refused_or, ground::specs::Pick::pick))]
pub fn start_data(
    watch: Watch,
    bench: Bench,
    ends: &mut [u64],
    slots: &mut [u8],
    priority: u8,
    length: u16,
) -> Result<Bench, Refusal>
    ensures number { number_of result ≡ data_number watch bench priority length }
    ensures answer { result ≡ refused_or (data_number watch bench priority length) (data_joins bench length) }
    ensures lent { Pushed (data_number watch bench priority length) bench.to_b (data_end bench.clock length).0 (data_octets priority length)
        ends.old slots.old ends.new slots.new }
{
    may_start_data(watch, bench, priority, length)?;
    let end = data_end(bench.clock, length);
    let octets = data_octets(priority, length);
    rows::push(ends, slots, bench.to_b.count, end, &octets);
    let joined = Direction {
        free: end,
        count: bench.to_b.count + 1,
    };
    Ok(Bench {
        to_b: joined,
        ..bench
    })
}

// Kind 04's refusals: 33, 34 and 38 in this order.
#[tactic(auto, unfolding(crate::specs::Starting::other_number, decisions::specs::Chains::start_other_number))]
fn may_start_other(watch: Watch, bench: Bench, length: u16) -> Result<(), Refusal>
    ensures number { number_of result ≡ other_number watch bench length }
    ensures answer { result ≡ refused_or (other_number watch bench length) tt }
{
    decisions::kind_04::may_start_other(
        decisions::length_outside(watch.settings.largest, u64::from(length)),
        bench_state::is_busy(bench.to_a, bench.clock),
        moments::past(bench.marks.due, watch.kept.generation, bench.clock),
    )
}

// Kind 04: B starts some other frame, which only holds the wire.
#[tactic(auto, unfolding(refusals::specs::Refusals::refused_or, ground::specs::Pick::pick))]
pub fn start_other(watch: Watch, bench: Bench, length: u16) -> Result<Bench, Refusal>
    ensures number { number_of result ≡ other_number watch bench length }
    ensures answer { result ≡ refused_or (other_number watch bench length) (other_holds bench length) }
{
    may_start_other(watch, bench, length)?;
    let held = Direction {
        free: data_end(bench.clock, length),
        count: bench.to_a.count,
    };
    Ok(Bench {
        to_a: held,
        ..bench
    })
}
