// The report of a run, from what the bench holds.
#![tactic(auto)]

ghost use Rattle.std.specs.Prelude.{[], ◌≡◌, ◌<◌, get_or};
ghost use Rattle.ground.specs.Eight.{eight};
ghost use Rattle.reporting.specs.Reporting.{standing};

use bench_meaning::Report;
use bench_state::Bench;

// One of the four numbers of each room: 0 held, 1 dropped, 3 worst.
fn column(numbers: [[u64; 4]; 8], k: usize) -> [u64; 8]
    requires { k < 4 }
    ensures { result ≡ eight (λ n. get_or (get_or numbers n []) k 0) }
{
    std::array::from_fn(|n| numbers[n][k])
}

// The report of a run that stands here.
pub fn report_of(
    enabled: u8,
    bench: Bench,
    numbers: [[u64; 4]; 8],
    steps: u64,
    refusal: u8,
    at: u64,
) -> Report
    ensures { result ≡ standing enabled bench numbers steps refusal at }
{
    let held = column(numbers, 0); // an array goes into a literal by a name: the borrow checker covers no other way
    let dropped = column(numbers, 1);
    let worst = column(numbers, 3);
    let timers = bench.head.timers;
    Report {
        steps,
        time: bench.clock,
        refusal,
        at,
        enabled,
        held,
        dropped,
        worst,
        timers,
    }
}
