// Bit times, octet times and pause quanta, and the named conversions between them. Nothing in the product adds a count of one kind
// to a count of another but through these. Where a count is more than its type holds, the answer is the largest that it holds.
#![tactic(auto)]

ghost use Rattle.std.specs.Prelude.{◌≡◌, ◌+◌};
ghost use Rattle.units.specs.Units.{bits_of_octets, bits_of_quanta, octets_of_bits, octets_of_quanta, quanta_of_bits, wire_time, within64};

// A count of bit times.
#[derive(Clone, Copy, Debug, PartialEq, Eq, PartialOrd, Ord)]
pub struct BitTimes(pub u64);

// A count of octet times, 8 bit times each.
#[derive(Clone, Copy, Debug, PartialEq, Eq, PartialOrd, Ord)]
pub struct OctetTimes(pub u64);

// A count of pause quanta, 512 bit times each.
#[derive(Clone, Copy, Debug, PartialEq, Eq, PartialOrd, Ord)]
pub struct Quanta(pub u64);

// The octet times of a pause quantum.
pub const QUANTUM: OctetTimes = OctetTimes(64);

// The octet times that a wire holds beside a frame's own octets: preamble 8, gap 12.
pub const BESIDE_FRAME: OctetTimes = OctetTimes(20);

// The wire time of a PFC frame.
pub const PFC_TIME: OctetTimes = OctetTimes(84);

// The bit times of two delays, one after the other.
pub fn sum_of_bits(one: BitTimes, other: BitTimes) -> BitTimes
    ensures { result.0 ≡ within64 (one.0 + other.0) }
{
    BitTimes(one.0.saturating_add(other.0))
}

// The moment that comes a count of octet times after a moment; the time of two spans, one after the other.
pub fn later(moment: OctetTimes, count: OctetTimes) -> OctetTimes
    ensures { result.0 ≡ within64 (moment.0 + count.0) }
{
    OctetTimes(moment.0.saturating_add(count.0))
}

// The time that a frame of so many octets holds its wire.
pub fn wire_time(length: u64) -> OctetTimes
    ensures { result.0 ≡ within64 (wire_time length) }
{
    later(OctetTimes(length), BESIDE_FRAME)
}

// The bit times of a count of octet times.
pub fn bits_of_octets(o: OctetTimes) -> BitTimes
    ensures { result.0 ≡ within64 (bits_of_octets o.0) }
{
    BitTimes(o.0.saturating_mul(8))
}

// The bit times of a count of pause quanta.
pub fn bits_of_quanta(q: Quanta) -> BitTimes
    ensures { result.0 ≡ within64 (bits_of_quanta q.0) }
{
    BitTimes(q.0.saturating_mul(512))
}

// The octet times of a count of pause quanta.
pub fn octets_of_quanta(q: Quanta) -> OctetTimes
    ensures { result.0 ≡ within64 (octets_of_quanta q.0) }
{
    OctetTimes(q.0.saturating_mul(QUANTUM.0))
}

// The octet times that hold a count of bit times: rounded up.
pub fn octets_of_bits(b: BitTimes) -> OctetTimes
    ensures { result.0 ≡ octets_of_bits b.0 }
{
    OctetTimes(b.0.div_ceil(8))
}

// The pause quanta that hold a count of bit times: rounded up.
pub fn quanta_of_bits(b: BitTimes) -> Quanta
    ensures { result.0 ≡ quanta_of_bits b.0 }
{
    Quanta(b.0.div_ceil(512))
}
