// The records of a run, one after the other, up to the first refusal.
#![tactic(auto)]

ghost use Rattle.std.specs.Prelude.{◌≡◌};
ghost use Rattle.bench_meaning.specs.Run.{follow_of};
ghost use Rattle.following.specs.Following.{empty_bench};

use bench_meaning::Report;
use bench_state::Bench;
use bench_steps::step;
use head::Head;
use marks::Marks;
use recorder::Watch;
use rows::Direction;
use units::OctetTimes;

// What goes by value at the start: time 0, buffers empty.
fn empty_bench(enabled: u8) -> Bench
    ensures { result ≡ empty_bench enabled }
{
    let idle = Direction {
        free: OctetTimes(0),
        count: 0,
    };
    Bench {
        clock: OctetTimes(0),
        head: Head::fresh(enabled),
        marks: Marks::fresh(),
        to_b: idle,
        to_a: idle,
    }
}

// The records after accepted settings, one after the other, up to the first refusal. (By a place: each record has a length of its own.)
pub fn follow(watch: Watch, input: &[u8]) -> Report
    ensures { result ≡ follow_of watch input.now }
{
    let mut bench = empty_bench(watch.settings.enabled);
    let mut numbers = [[0u64; 4]; 8];
    let mut data_ends = [0u64; 128];
    let mut data_slots = [0u8; 384];
    let mut pfc_ends = [0u64; 128];
    let mut pfc_slots = [0u8; 7680];
    let mut at: usize = 0;
    let mut steps: u64 = 0;
    while at < input.len() {
        let answer = step::step(
            watch,
            bench,
            &mut numbers,
            &mut data_ends,
            &mut data_slots,
            &mut pfc_ends,
            &mut pfc_slots,
            &input[at..],
        );
        let Ok(next) = answer else {
            return reporting::report_of(
                watch.settings.enabled,
                bench,
                numbers,
                steps,
                refusals::number_told(answer.err()),
                steps + 1,
            );
        };
        bench = next;
        at = at + 1 + records::body_length(octets::octet_at(input, at));
        steps = steps + 1;
    }
    reporting::report_of(watch.settings.enabled, bench, numbers, steps, 0, 0)
}
