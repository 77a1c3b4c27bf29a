// The bench: reads records on standard input, runs them and prints the report in document 01's form; what a refusal means is said on standard
// error. Where the input cannot be read there is no report, and where it cannot be written that is said.
#![tactic(auto)]

mod meaning;

ghost use Rattle.std.specs.Prelude.{◌<◌};

use bench_meaning::Report;
use page::Page;
use remarks::Told;

fn number(page: &mut Page, word: &[u8], n: u64) {
    page.put(word);
    page.number(n);
}

fn first_line(page: &mut Page, report: Report) {
    number(page, b"steps ", report.steps);
    number(page, b" time ", report.time.0);
    number(page, b" refusal ", u64::from(report.refusal));
    number(page, b" at ", report.at);
    page.put(b"\n");
}

// The line of a priority below 8, if it is enabled: what its room holds, what it dropped, the worst of it, and A's timer.
fn room_line(page: &mut Page, report: Report, priority: usize)
    requires { priority < 8 }
{
    if !settings::is_enabled(report.enabled, priority as u8) {
        return;
    }
    page.number(priority as u64);
    number(page, b" held ", report.held[priority]);
    number(page, b" dropped ", report.dropped[priority]);
    number(page, b" worst ", report.worst[priority]);
    number(page, b" paused ", u64::from(report.timers[priority]));
    page.put(b"\n");
}

fn report_page(report: Report) -> Page {
    let mut page = Page::blank();
    first_line(&mut page, report);
    for priority in 0..8 {
        room_line(&mut page, report, priority);
    }
    page
}

// Runs the records and prints the report, then says what its refusal means.
fn answer(rt: &HostRuntime, input: &[u8]) -> Result<(), Told> {
    let report = bench_run::run(input);
    console::output::write_page(rt, &mut rt.stdout(), b"bench", &report_page(report))?;
    meaning::tell(rt, report.refusal, report.at, input);
    Ok(())
}

// One octet more than a run takes, so that a longer input is seen to be too long.
fn buffer() -> [u8; 65_537] {
    [0u8; 65_537]
}

fn main(rt: HostRuntime) {
    let mut input = buffer();
    if let Ok(n) = console::input::read_whole(&rt, &mut rt.stdin(), b"bench", &mut input) {
        let _ = answer(&rt, &input[..n]);
    }
}
