// Does one piece of work turn after turn and prints a sum over the answers, as docs/FIGURES.md says, so that what the libraries cost can
// be measured from outside. Nothing is proved of the sum but that working it out is safe and ends. Where the input cannot be read there is
// no sum, and that is said on standard error.
#![tactic(auto)]

mod frames;
mod recording;
mod station;
mod turns;

use page::Page;
use units::Quanta;

// The sum over the answers of the work that is asked.
fn sum_of(what: u8, turns: u64, material: &[u8]) -> u64 {
    match what {
        0x01 => frames::reading(material, turns),
        0x02 => frames::building(turns),
        0x03 => station::single_quanta(turns),
        0x04 => station::many_quanta(turns, Quanta(100)),
        0x05 => station::requests(turns),
        0x06 => station::choices(turns),
        0x07 => recording::watching(turns),
        0x08 => station::counted_quanta(turns, material),
        _ => 0,
    }
}

fn asked(file: &[u8]) -> u64 {
    if file.len() < 9 {
        return 0;
    }
    sum_of(file[0], turns::count(file), &file[9..])
}

fn buffer() -> [u8; 65_536] {
    [0u8; 65_536]
}

// Prints the sum on a line.
fn answer(rt: &HostRuntime, file: &[u8]) {
    let mut page = Page::blank();
    page.number(asked(file));
    page.put(b"\n");
    let _ = console::output::write_page(rt, &mut rt.stdout(), b"figures", &page);
}

fn main(rt: HostRuntime) {
    let mut file = buffer();
    if let Ok(n) = console::input::read_whole(&rt, &mut rt.stdin(), b"figures", &mut file) {
        answer(&rt, &file[..n]);
    }
}
