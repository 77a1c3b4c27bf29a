// What the program prints, put on a page: the sum item by item, a refusal in words, a word that is no number, and how to use it.
use headroom_sum::{Inputs, Items};
use itoa::Buffer;
use page::Page;
use refusals::Refusal;
use units::{BitTimes, OctetTimes};
use words::WordError;

// A number at the right end of a column of twelve.
fn column(page: &mut Page, n: u64) {
    let mut digits = Buffer::new();
    let number = digits.format(n).as_bytes();
    let blanks = b"            ";
    page.put(&blanks[..words::blanks(12, number.len()).min(12)]);
    page.put(number);
}

fn no_column(page: &mut Page) {
    page.put(b"           -");
}

// A delay that is counted in bits alone.
fn bits_item(page: &mut Page, name: &[u8], bits: BitTimes) {
    page.put(name);
    column(page, bits.0);
    no_column(page);
    column(page, units::quanta_of_bits(bits).0);
    page.put(b"\n");
}

// A part that is kept in octet times too.
fn kept_item(page: &mut Page, name: &[u8], bits: BitTimes, octets: OctetTimes) {
    page.put(name);
    column(page, bits.0);
    column(page, octets.0);
    column(page, units::quanta_of_bits(bits).0);
    page.put(b"\n");
}

// A time that is counted in octets alone.
fn octets_item(page: &mut Page, name: &[u8], octets: OctetTimes) {
    page.put(name);
    no_column(page);
    column(page, octets.0);
    no_column(page);
    page.put(b"\n");
}

// What a request waits for before it leaves B.
fn waiting_items(page: &mut Page, inputs: Inputs, items: Items) {
    let room = items.room;
    kept_item(
        page,
        b"generation, G           ",
        inputs.generation,
        room.generation,
    );
    kept_item(
        page,
        b"largest frame from B, W ",
        units::bits_of_octets(room.wire),
        room.wire,
    );
    let pfc = units::PFC_TIME;
    kept_item(
        page,
        b"PFC frame               ",
        units::bits_of_octets(pfc),
        pfc,
    );
}

fn request_items(page: &mut Page, inputs: Inputs, items: Items) {
    bits_item(page, b"  B transmit            ", inputs.b_transmit);
    bits_item(page, b"  link                  ", items.link);
    bits_item(page, b"  A receive             ", inputs.a_receive);
    bits_item(page, b"  halt                  ", inputs.halt);
    kept_item(
        page,
        b"request path, P         ",
        items.request_path,
        items.room.request,
    );
}

fn data_items(page: &mut Page, inputs: Inputs, items: Items) {
    let room = items.room;
    kept_item(
        page,
        b"largest frame from A, W ",
        units::bits_of_octets(room.wire),
        room.wire,
    );
    bits_item(page, b"  A transmit            ", inputs.a_transmit);
    bits_item(page, b"  link                  ", items.link);
    bits_item(page, b"  B receive             ", inputs.b_receive);
    kept_item(
        page,
        b"data path, D            ",
        items.data_path,
        room.data,
    );
}

fn sums(page: &mut Page, items: Items) {
    bits_item(page, b"total                   ", items.total);
    octets_item(page, b"one-way time            ", items.room.one_way);
    octets_item(page, b"headroom                ", items.room.headroom);
}

// The sum item by item: in bits, in octet times where it is kept in them, and in quanta rounded up.
pub(crate) fn items(inputs: Inputs, items: Items) -> Page {
    let mut page = Page::blank();
    page.put(b"                                bits      octets      quanta\n");
    waiting_items(&mut page, inputs, items);
    request_items(&mut page, inputs, items);
    data_items(&mut page, inputs, items);
    sums(&mut page, items);
    page
}

fn refused_halt(page: &mut Page, rate: u64, limit: u64) {
    page.put(b"refused 19: the halt delay must be 0 to ");
    page.number(limit);
    page.put(b" bits at ");
    page.number(rate);
    page.put(b" Mb/s\n");
}

// A refusal: its number, what was refused and what is allowed.
pub(crate) fn refusal(refusal: Refusal, rate: u64, limit: u64) -> Page {
    let mut page = Page::blank();
    match refusal {
        Refusal::Rate => page.put(b"refused 10: the rate must be 10000, 40000 or 100000 Mb/s\n"),
        Refusal::Metres => page.put(b"refused 11: the metres must be 0 to 100000\n"),
        Refusal::Percentage => page.put(
            b"refused 12: the signal's speed must be 40 to 100 per cent of light's\n",
        ),
        Refusal::LargestFrame => page.put(
            b"refused 13: the largest frame M must be 64 to 9216 octets\n",
        ),
        Refusal::Delay => page.put(
            b"refused 14: generation and each transmit and receive delay must be 0 to 1048576 bits, each path at most 134217728\n",
        ),
        _ => refused_halt(&mut page, rate, limit),
    }
    page
}

// The name of argument i.
fn name(i: usize) -> &'static [u8] {
    match i {
        1 => b"RATE",
        2 => b"METRES",
        3 => b"PERCENTAGE",
        4 => b"M",
        5 => b"GENERATION",
        6 => b"B_TRANSMIT",
        7 => b"B_RECEIVE",
        8 => b"A_TRANSMIT",
        9 => b"A_RECEIVE",
        _ => b"HALT",
    }
}

// A line of the name of argument i, what is wrong with it, and what was given where that is said.
fn line(i: usize, what: &[u8], given: &[u8]) -> Page {
    let mut page = Page::blank();
    page.put(name(i));
    page.put(what);
    page.put(given);
    page.put(b"\n");
    page
}

// What is wrong with argument i.
pub(crate) fn told(i: usize, given: &[u8], error: WordError) -> Page {
    match error {
        WordError::NotANumber => line(i, b" is not a number: ", given),
        WordError::TooLarge => line(i, b" is above 18446744073709551615: ", given),
    }
}

pub(crate) fn stack_too_long(i: usize) -> Page {
    line(i, b" is above 1048576 bits by its rows", b"")
}

pub(crate) fn no_such_row(i: usize) -> Page {
    line(i, b" has a row that is not 1 to 8", b"")
}

// How to use the program, with document 004's example as a line to copy.
pub(crate) fn usage() -> Page {
    let mut page = Page::blank();
    page.put(
        b"usage: headroom RATE METRES PERCENTAGE M GENERATION B_TRANSMIT B_RECEIVE A_TRANSMIT A_RECEIVE HALT
B is the recorder, A the head.
  RATE        10000, 40000 or 100000 Mb/s
  METRES      of cable, 0 to 100000
  PERCENTAGE  the signal's speed in it, 40 to 100 per cent of light's
  M           the largest frame in octets with FCS, 64 to 9216
  GENERATION  bits, 0 to 1048576
  B_TRANSMIT, B_RECEIVE, A_TRANSMIT, A_RECEIVE
              bits, 0 to 1048576; or rows: and a digit for each row of Table N-1 in the interface:
              1 10G MAC Control, MAC and RS   2 XGXS and XAUI   3 10GBASE-X PCS   4 10GBASE-R PCS
              5 LX4   6 CX4   7 serial PMA and PMD   8 10GBASE-T
  HALT        bits, at most 6144, 24576 or 61440 at the three rates
The example of document 004, 100 metres of cable between two 10GBASE-T interfaces, written in two ways:
  headroom 10000 100 60 2000 200 18944 18944 18944 18944 6144
  headroom 10000 100 60 2000 200 rows:1228 rows:1228 rows:1228 rows:1228 6144
",
    );
    page
}
