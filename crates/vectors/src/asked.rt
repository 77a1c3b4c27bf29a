// What a case asks: its body is taken apart, the library is called, and the answer is printed. A body that is too
// short is `short`.
ghost use Rattle.std.specs.Prelude.{◌+◌, ◌≤◌, length, IfSome};

use crate::{fields, print};
use head::Head;
use headroom_sum::Inputs;
use remarks::Told;
use settings::Settings;
use units::{BitTimes, OctetTimes, Quanta};

// M 8, own address 6, frame: what the frame is, and the part handed back.
pub(crate) fn reading(rt: &HostRuntime, body: &[u8]) -> Result<(), Told> {
    if body.len() < 14 {
        return print::short(rt);
    }
    let largest = octets::wide_at(body, 0);
    let own = fields::address(body, 8);
    print::verdict(rt, frame::read(&body[14..], largest, own))?;
    print::part(rt, frame::part(&body[14..], largest, own))
}

// Source 6, e 1, times 8 x 2, buffer: the buffer is lent as it stands in the case.
pub(crate) fn building(rt: &HostRuntime, body: &mut [u8]) -> Result<(), Told> {
    if body.len() < 23 {
        return print::short(rt);
    }
    let source = fields::address(body, 0);
    let e = body[6];
    let times = fields::times(body, 7);
    build_in(rt, &mut body[23..], source, e, times)
}

fn build_in(
    rt: &HostRuntime,
    buffer: &mut [u8],
    source: [u8; 6],
    e: u8,
    times: [u16; 8],
) -> Result<(), Told> {
    print::built(rt, frame_build::build(buffer, source, e, times))?;
    print::part(rt, buffer)
}

// The octets of the action at a place of a row; none where the row ends there.
fn action_size(row: &[u8], at: usize) -> Option<usize>
    requires { at ≤ length row.now }
    ensures { IfSome result (λ size. (9 ≤ size) × (at + size ≤ length row.now)) }
{
    let left = row.len() - at;
    match row.get(at) {
        Some(0x01) if left >= 9 => Some(9),
        Some(0x00) if left >= 18 => Some(18),
        _ => None,
    }
}

// The head after the action at a place of a row, of so many octets.
fn acted(head: Head, row: &[u8], at: usize, size: usize) -> Head
    requires { (9 ≤ size) × (at + size ≤ length row.now) }
{
    if size < 18 {
        return head.passed(Quanta(octets::wide_at(row, at + 1)));
    }
    head.taken(row[at + 1], fields::times(row, at + 2))
}

// The head after a row of actions, which starts at a place of a case.
fn after_row(head: Head, row: &[u8], start: usize) -> Head
    requires { start ≤ length row.now }
{
    let mut now = head;
    let mut at = start;
    while let Some(size) = action_size(row, at) {
        now = acted(now, row, at, size);
        at += size;
    }
    now
}

// Enabled 1, indications so far 4, timers 8 x 2, then the row of actions.
pub(crate) fn timers(rt: &HostRuntime, body: &[u8]) -> Result<(), Told> {
    if body.len() < 21 {
        return print::short(rt);
    }
    let timers = fields::times(body, 5);
    let head = Head {
        enabled: body[0],
        timers,
        indications: (octets::long_at(body, 1) % 4_294_967_296) as u32,
    };
    print::head(rt, after_row(head, body, 21))
}

// Fronts 8, map 8, paused marks 1.
pub(crate) fn choice(rt: &HostRuntime, body: &[u8]) -> Result<(), Told> {
    if body.len() < 17 {
        return print::short(rt);
    }
    let paused = octets::bits(body[16]);
    print::choice(
        rt,
        choice::choose(fields::row(body, 0), fields::row(body, 8), paused),
    )
}

// Rate, metres, percentage, M, generation, B transmit, B receive, A transmit, A receive, halt: 8 octets each.
pub(crate) fn headroom(rt: &HostRuntime, body: &[u8]) -> Result<(), Told> {
    if body.len() < 80 {
        return print::short(rt);
    }
    let inputs = Inputs {
        rate: octets::wide_at(body, 0),
        metres: octets::wide_at(body, 8),
        percentage: octets::wide_at(body, 16),
        largest: octets::wide_at(body, 24),
        generation: BitTimes(octets::wide_at(body, 32)),
        b_transmit: BitTimes(octets::wide_at(body, 40)),
        b_receive: BitTimes(octets::wide_at(body, 48)),
        a_transmit: BitTimes(octets::wide_at(body, 56)),
        a_receive: BitTimes(octets::wide_at(body, 64)),
        halt: BitTimes(octets::wide_at(body, 72)),
    };
    print::summed(rt, headroom_sum::sum(inputs))
}

// Enabled 1, M 8, generation 8, request path 8, data path 8, T 2, I 8, hysteresis 8, rooms 8 x 8.
pub(crate) fn settings(rt: &HostRuntime, body: &[u8]) -> Result<(), Told> {
    if body.len() < 115 {
        return print::short(rt);
    }
    let rooms = fields::rooms(&body[51..]);
    let settings = Settings {
        enabled: body[0],
        largest: octets::wide_at(body, 1),
        generation: BitTimes(octets::wide_at(body, 9)),
        request_path: BitTimes(octets::wide_at(body, 17)),
        data_path: BitTimes(octets::wide_at(body, 25)),
        pause: octets::word_at(body, 33),
        refresh: OctetTimes(octets::wide_at(body, 35)),
        hysteresis: octets::wide_at(body, 43),
        rooms,
    };
    print::settling(rt, settings::settle(settings))
}

fn send<'a>(rt: &HostRuntime, control: &'a [u8], data: &'a [u8], due: bool) -> Result<(), Told> {
    let number = refusals::number_told(sender::send_refusal(control));
    print::refusal(rt, b"sender ", number)?;
    print::part(rt, sender::to_send(control, data, due))
}

// Due 1, control length 2, data length 2, control frame, data frame.
pub(crate) fn sender(rt: &HostRuntime, body: &[u8]) -> Result<(), Told> {
    if body.len() < 5 {
        return print::short(rt);
    }
    let control = usize::from(octets::word_at(body, 1));
    let data = usize::from(octets::word_at(body, 3));
    let middle = 5 + control;
    let end = middle + data;
    if body.len() < end {
        return print::short(rt);
    }
    send(rt, &body[5..middle], &body[middle..end], body[0] != 0)
}
