// A run over a whole input: the settings, then the records that follow them.
#![tactic(auto)]

ghost use Rattle.std.specs.Prelude.{◌≡◌, ◌≤◌, length};
ghost use Rattle.ground.specs.First.{first_of};
ghost use Rattle.refusals.specs.Refusals.{number_of, refused_or};
ghost use Rattle.bench_meaning.specs.Run.{settings_in, refused_report, is_missing, input_order, settled_of, run_of};

use bench_meaning::Report;
use recorder::Watch;
use refusals::Refusal;
use settings::Settings;
use units::{BitTimes, OctetTimes};

// The most octets that an input has.
const MOST_INPUT: usize = 65_536;

// The octets of the settings: their kind and 57 more.
const SETTINGS_LENGTH: usize = 58;

// The eight rooms, from priority 0 up.
#[tactic(auto, using(ground::proofs::Eight::eight_is), unfolding(ground::specs::Pick::pick))]
fn rooms_in(input: &[u8]) -> [u64; 8]
    ensures { result ≡ (settings_in input.now).rooms }
{
    std::array::from_fn(|n| octets::long_at(input, 26 + 4 * n))
}

// The settings in the octets of a record of kind 00; octets past the end count as 0.
fn settings_in(input: &[u8]) -> Settings
    ensures { result ≡ settings_in input.now }
{
    let rooms = rooms_in(input);
    Settings {
        enabled: octets::octet_at(input, 1),
        largest: u64::from(octets::word_at(input, 2)),
        generation: BitTimes(octets::long_at(input, 4)),
        request_path: BitTimes(octets::long_at(input, 8)),
        data_path: BitTimes(octets::long_at(input, 12)),
        pause: octets::word_at(input, 16),
        refresh: OctetTimes(octets::long_at(input, 18)),
        hysteresis: octets::long_at(input, 22),
        rooms,
    }
}

// The report where no settings were accepted: line 1 stands alone.
fn refused_report(number: u8) -> Report
    ensures { result ≡ refused_report number }
{
    Report {
        steps: 0,
        time: OctetTimes(0),
        refusal: number,
        at: 0,
        enabled: 0,
        held: [0u64; 8],
        dropped: [0u64; 8],
        worst: [0u64; 8],
        timers: [0u16; 8],
    }
}

// Whether the settings are missing: no octet at all, or a first record of another kind.
#[tactic(auto, unfolding(bench_meaning::specs::Run::is_missing, ground::specs::Pick::pick))]
fn is_missing(kind: u8, size: usize) -> bool
    ensures { result ≡ is_missing kind size }
{
    size < 1 || kind != 0
}

// 45, 44 and 31 of an input by its first octet and its length, in this order.
#[tactic(auto, unfolding(crate::proofs::Running::refused_or, crate::proofs::Running::numbered_in, ground::specs::Pick::pick, ground::specs::First::first_of))]
fn may_run(kind: u8, size: usize) -> Result<(), Refusal>
    ensures number { number_of result ≡ first_of (input_order kind size) }
    ensures answer { result ≡ refused_or (first_of (input_order kind size)) tt }
{
    if MOST_INPUT < size {
        return Err(Refusal::InputLong);
    }
    if is_missing(kind, size) {
        return Err(Refusal::Settings);
    }
    if size < SETTINGS_LENGTH {
        return Err(Refusal::BodyShort);
    }
    Ok(())
}

// Settings of 58 octets or more, and what follows them.
#[tactic(auto, using(crate::proofs::Running::settled_refused), unfolding(ground::specs::Pick::pick))]
fn settled(input: &[u8]) -> Report
    requires { 58 ≤ length input.now }
    ensures { result ≡ settled_of input.now }
{
    let settings = settings_in(input);
    match settings::settle(settings) {
        Ok(kept) => following::follow(Watch { settings, kept }, &input[58..]),
        Err(refusal) => refused_report(refusal.number()),
    }
}

// The run over a whole input of at most 65,536 octets; one that is longer is refused, whatever stands in it.
pub fn run(input: &[u8]) -> Report
    ensures { result ≡ run_of input.now }
{
    match may_run(octets::octet_at(input, 0), input.len()) {
        Err(refusal) => refused_report(refusal.number()),
        Ok(()) => settled(input),
    }
}
