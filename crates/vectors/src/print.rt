// The lines of docs/VECTORS.md: numbers in decimal, octets as lower-case hex, `-` for no octets. A line that cannot be written ends there.
ghost use Rattle.std.specs.Prelude.{◌≤◌, length};

use frame::Request;
use head::Head;
use headroom_sum::Items;
use itoa::Buffer;
use refusals::Refusal;
use remarks::Told;
use room_to_keep::Kept;

// Words. All before them was written: a caller hands an Err on by `?` before it writes on.
fn text(rt: &HostRuntime, words: &[u8]) -> Result<(), Told> {
    console::output::write(rt, &mut rt.stdout(), b"vectors", Ok(()), words)
}

// A word and a number after it.
fn item(rt: &HostRuntime, word: &[u8], n: u64) -> Result<(), Told> {
    let mut digits = Buffer::new();
    text(rt, word)?;
    text(rt, digits.format(n).as_bytes())
}

pub(crate) fn short(rt: &HostRuntime) -> Result<(), Told> {
    text(rt, b"short\n")
}

// The lower-case digit of a number's low four bits.
fn digit(n: u8) -> u8 {
    b"0123456789abcdef"[usize::from(n % 16)]
}

// The hex of octets, of at most 256.
fn hex_some(rt: &HostRuntime, octets: &[u8]) -> Result<(), Told>
    requires { length octets.now ≤ 256 }
{
    let mut digits = [0u8; 512];
    for (i, octet) in octets.iter().enumerate() {
        digits[2 * i] = digit(*octet / 16);
        digits[2 * i + 1] = digit(*octet);
    }
    text(rt, &digits[..2 * octets.len()])
}

// The hex of octets.
fn hex(rt: &HostRuntime, octets: &[u8]) -> Result<(), Told> {
    for some in octets.chunks(256) {
        hex_some(rt, some)?;
    }
    Ok(())
}

// The end of a line: a blank and a part, or `-` for an empty one.
pub(crate) fn part(rt: &HostRuntime, octets: &[u8]) -> Result<(), Told> {
    if octets.is_empty() {
        return text(rt, b" -\n");
    }
    text(rt, b" ")?;
    hex(rt, octets)?;
    text(rt, b"\n")
}

// The start of a line: a word and the number of a refusal, or 0.
pub(crate) fn refusal(rt: &HostRuntime, word: &[u8], number: u8) -> Result<(), Told> {
    item(rt, word, u64::from(number))
}

// A whole line of a word and the number of a refusal.
fn refused(rt: &HostRuntime, word: &[u8], number: u8) -> Result<(), Told> {
    refusal(rt, word, number)?;
    text(rt, b"\n")
}

// Eight numbers, a blank before each.
fn eight(rt: &HostRuntime, numbers: [u16; 8]) -> Result<(), Told> {
    for number in numbers {
        item(rt, b" ", u64::from(number))?;
    }
    Ok(())
}

fn asks(rt: &HostRuntime, asked: Request) -> Result<(), Told> {
    item(rt, b"read request ", u64::from(asked.e))?;
    eight(rt, asked.times)
}

// What a frame is; the part follows on the same line.
pub(crate) fn verdict(
    rt: &HostRuntime,
    found: Result<Option<Request>, Refusal>,
) -> Result<(), Told> {
    match found {
        Ok(None) => text(rt, b"read data")?,
        Ok(Some(asked)) => asks(rt, asked)?,
        Err(refused) => refusal(rt, b"read ", refused.number())?,
    }
    text(rt, b" part")
}

// What building answered; the buffer follows on the same line.
pub(crate) fn built(rt: &HostRuntime, answer: Result<(), Refusal>) -> Result<(), Told> {
    match answer {
        Ok(()) => text(rt, b"build 0"),
        Err(refused) => refusal(rt, b"build ", refused.number()),
    }
}

// The value of a mark's bit where the mark is set, else 0.
fn bit(mark: bool, value: u64) -> u64
    ensures { result ≤ value }
{
    if mark { value } else { 0 }
}

// Eight marks as one number: bit n is mark n.
fn joined(m: [bool; 8]) -> u64 {
    let low = bit(m[0], 1) + bit(m[1], 2) + bit(m[2], 4) + bit(m[3], 8);
    let high = bit(m[4], 16) + bit(m[5], 32) + bit(m[6], 64) + bit(m[7], 128);
    low + high
}

pub(crate) fn head(rt: &HostRuntime, state: Head) -> Result<(), Told> {
    text(rt, b"head")?;
    eight(rt, state.timers)?;
    item(rt, b" paused ", joined(state.marks()))?;
    item(rt, b" indications ", u64::from(state.indications))?;
    text(rt, b"\n")
}

pub(crate) fn choice(rt: &HostRuntime, answer: Result<Option<u8>, Refusal>) -> Result<(), Told> {
    match answer {
        Ok(Some(class)) => refused(rt, b"choice class ", class),
        Ok(None) => text(rt, b"choice none\n"),
        Err(refusal) => refused(rt, b"choice ", refusal.number()),
    }
}

// What is kept, in octet times, to the line's end.
fn kept(rt: &HostRuntime, room: Kept) -> Result<(), Told> {
    item(rt, b" G ", room.generation.0)?;
    item(rt, b" W ", room.wire.0)?;
    item(rt, b" P ", room.request.0)?;
    item(rt, b" D ", room.data.0)?;
    item(rt, b" oneway ", room.one_way.0)?;
    item(rt, b" headroom ", room.headroom.0)?;
    text(rt, b"\n")
}

fn items(rt: &HostRuntime, sum: Items) -> Result<(), Told> {
    item(rt, b"headroom link ", sum.link.0)?;
    item(rt, b" request ", sum.request_path.0)?;
    item(rt, b" data ", sum.data_path.0)?;
    item(rt, b" total ", sum.total.0)?;
    kept(rt, sum.room)
}

pub(crate) fn summed(rt: &HostRuntime, answer: Result<Items, Refusal>) -> Result<(), Told> {
    match answer {
        Ok(sum) => items(rt, sum),
        Err(refusal) => refused(rt, b"headroom ", refusal.number()),
    }
}

fn accepted(rt: &HostRuntime, room: Kept) -> Result<(), Told> {
    text(rt, b"settings")?;
    kept(rt, room)
}

pub(crate) fn settling(rt: &HostRuntime, answer: Result<Kept, Refusal>) -> Result<(), Told> {
    match answer {
        Ok(room) => accepted(rt, room),
        Err(refusal) => refused(rt, b"settings ", refusal.number()),
    }
}
