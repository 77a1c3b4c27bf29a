// Octets to numbers, and the bits of an octet. Any octets and any place are answered: an octet past the end counts as 0.
#![tactic(auto)]

ghost use Rattle.std.specs.Prelude.{◌≡◌, ℕ, ◌+◌, ◌<◌, drop, slice_index};
ghost use Rattle.ground.specs.Eight.{eight, is_set, some};
ghost use Rattle.octets.specs.Numbers.{octet_at, word_at, long_at, address_at, wide_at, word_octets};

// The octet at a place; 0 past the end.
pub fn octet_at(octets: &[u8], place: usize) -> u8
    ensures { result ≡ octet_at octets.now place }
{
    octets.get(place).copied().unwrap_or(0)
}

// What follows from a place on; nothing past the end.
fn rest_from(octets: &[u8], place: usize) -> &[u8]
    ensures { result.now ≡ drop place octets.now }
{
    octets.get(place..).unwrap_or(&[])
}

// The octets from a place on, as many as are asked for; past the end they are 0.
fn octets_at<const N: usize>(octets: &[u8], place: usize) -> [u8; N]
    ensures { (n : ℕ) → n < N → slice_index result n ≡ octet_at octets.now (place + n) }
{
    let rest = rest_from(octets, place);
    std::array::from_fn(|n| octet_at(rest, n))
}

// The number of two octets from a place on, most significant first.
pub fn word_at(octets: &[u8], place: usize) -> u16
    ensures { result ≡ word_at octets.now place }
{
    u16::from_be_bytes(octets_at(octets, place))
}

// The number of four octets from a place on, most significant first.
pub fn long_at(octets: &[u8], place: usize) -> u64
    ensures { result ≡ long_at octets.now place }
{
    u64::from(u32::from_be_bytes(octets_at(octets, place)))
}

// The number of six octets from a place on, most significant first: an address.
pub fn address_at(octets: &[u8], place: usize) -> u64
    ensures { result ≡ address_at octets.now place }
{
    let [a, b, c, d, e, f] = octets_at::<6>(octets, place);
    u64::from_be_bytes([0, 0, a, b, c, d, e, f])
}

// The number of eight octets from a place on, most significant first.
pub fn wide_at(octets: &[u8], place: usize) -> u64
    ensures { result ≡ wide_at octets.now place }
{
    u64::from_be_bytes(octets_at(octets, place))
}

// The two octets of a number, most significant first.
pub fn word_octets(number: u16) -> [u8; 2]
    ensures { result ≡ word_octets number }
{
    number.to_be_bytes()
}

// The bits of an octet, bit 0 first.
pub fn bits(octet: u8) -> [bool; 8]
    ensures { result ≡ eight (is_set octet) }
{
    std::array::from_fn(|n| (octet >> n) % 2 == 1)
}

// Whether bit n of an octet is set; it has no bit above 7.
#[tactic(auto, using(crate::proofs::BitLaws::no_bit_past))]
pub fn is_set(octet: u8, n: u8) -> bool
    ensures { result ≡ is_set octet n }
{
    n < 8 && (octet >> n) % 2 == 1
}

// Whether one of eight marks is set.
pub fn some_of(marks: [bool; 8]) -> bool
    ensures { result ≡ some marks }
{
    marks.iter().any(|mark| *mark)
}
