// Station B: frames that arrive and octets that are taken.
use crate::turns;
use marks::Marks;
use moments::Moment;
use recorder::Watch;
use settings::Settings;
use units::{BitTimes, OctetTimes};

fn settings() -> Settings {
    Settings {
        enabled: 255,
        largest: 2_000,
        generation: BitTimes(200),
        request_path: BitTimes(62_564),
        data_path: BitTimes(29_300),
        pause: 65_535,
        refresh: OctetTimes(32_768),
        hysteresis: 2_000,
        rooms: [20_000u64; 8],
    }
}

// Now and then a PFC frame starts.
fn started(marks: Marks, turn: u64) -> Marks {
    if turn % 128 == 0 {
        marks::started(marks, OctetTimes(turn))
    } else {
        marks
    }
}

// What the disk takes: at times less than arrives, at times more.
fn octets_of(turn: u64) -> u64 {
    if turn / 64 % 2 == 0 { 1_000 } else { 2_044 }
}

// A frame arrives, then octets are taken.
fn after(numbers: &mut [[u64; 4]; 8], marks: Marks, watch: Watch, turn: u64) -> Marks {
    let priority = (turn % 8) as u8;
    let enabled = watch.settings.enabled;
    let limits = recorder::limits_of(watch, priority);
    let arrived = recorder::arrived(
        &mut *numbers,
        started(marks, turn),
        enabled,
        limits,
        priority,
        1_522,
        OctetTimes(turn),
    );
    let taken = recorder::taken(
        numbers,
        arrived,
        enabled,
        limits,
        priority,
        octets_of(turn),
        OctetTimes(turns::add(turn, 1)),
    );
    taken.unwrap_or(arrived)
}

fn moment(due: Moment) -> u64 {
    due.map_or(0, |since| since.0)
}

fn seen(held: u64, marks: Marks, turn: u64) -> u64 {
    let wanted = marks.wanted[(turn % 8) as usize];
    turns::add(turns::add(held, u64::from(wanted)), moment(marks.due))
}

fn watched(watch: Watch, turns: u64) -> u64 {
    let mut numbers = [[0u64; 4]; 8];
    let mut marks = Marks::fresh();
    let mut sum: u64 = 0;
    for turn in 0..turns {
        marks = after(&mut numbers, marks, watch, turn);
        let [held, ..] = numbers[(turn % 8) as usize];
        sum = turns::add(sum, seen(held, marks, turn));
    }
    turns::add(sum, u64::from(marks.sent))
}

pub(crate) fn watching(turns: u64) -> u64 {
    let settings = settings();
    match settings::settle(settings) {
        Ok(kept) => watched(Watch { settings, kept }, turns),
        Err(refusal) => u64::from(refusal.number()),
    }
}
