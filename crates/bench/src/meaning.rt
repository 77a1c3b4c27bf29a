// What a refusal of a run means, in document 01's words, on standard error. Where a number stands for two things, the one that is met.
use page::Page;

// 14: the generation delay, or a path.
fn delay(input: &[u8]) -> &'static [u8] {
    if octets::long_at(input, 4) > 1_048_576 {
        b"a generation delay above 1,048,576 bits"
    } else {
        b"a path above 134,217,728 bits"
    }
}

// 18: the hysteresis, or an enabled room.
fn room(input: &[u8]) -> &'static [u8] {
    if octets::long_at(input, 22) > 1_073_741_824 {
        b"hysteresis above 1,073,741,824"
    } else {
        b"enabled room above 1,073,741,824"
    }
}

// 44: settings as the first record are missing, as any other they are repeated.
fn settings(at: u64) -> &'static [u8] {
    if at == 0 {
        b"settings missing"
    } else {
        b"settings repeated"
    }
}

// The refusals of the settings and of an input as a whole, then those of the records after the settings. (By number: so a report tells them.)
fn words(refusal: u8, at: u64, input: &[u8]) -> &'static [u8] {
    match refusal {
        13 => b"M outside 64-9,216",
        14 => delay(input),
        15 => b"an enabled room below headroom + M + hysteresis",
        16 => b"64T < I + one-way time + 64",
        17 => b"I outside 1-4,194,304",
        18 => room(input),
        44 => settings(at),
        45 => b"input too long",
        30 => b"kind above 07",
        31 => b"body cut short",
        32 => b"priority above 7",
        33 => b"length outside 64-M",
        34 => b"wire busy",
        35 => b"priority paused at A",
        36 => b"128 under way",
        37 => b"none whose wire time has ended",
        38 => b"other frame later than G after PFC became due",
        39 => b"PFC not due",
        40 => b"a bound would be overrun",
        41 => b"time above 2^40",
        42 => b"more than is held",
        43 => b"priority not enabled",
        _ => b"",
    }
}

// Says a refusal, the number of its record and what it means; nothing where there is none.
pub(crate) fn tell(rt: &HostRuntime, refusal: u8, at: u64, input: &[u8]) {
    if refusal == 0 {
        return;
    }
    let mut line = Page::blank();
    line.put(b"refusal ");
    line.number(u64::from(refusal));
    line.put(b" at ");
    line.number(at);
    line.put(b": ");
    line.put(words(refusal, at, input));
    line.put(b"\n");
    remarks::remark(rt, &line);
}
