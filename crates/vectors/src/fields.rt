// Addresses, rows, times and rooms out of a case's octets.
ghost use Rattle.std.specs.Prelude.{◌+◌, ◌<◌, length};

// The address at a place.
pub(crate) fn address(case: &[u8], at: usize) -> [u8; 6]
    requires { at + 5 < length case.now }
{
    *case[at..].first_chunk().unwrap()
}

// The eight octets at a place.
pub(crate) fn row(case: &[u8], at: usize) -> [u8; 8]
    requires { at + 7 < length case.now }
{
    *case[at..].first_chunk().unwrap()
}

// The eight numbers of two octets at a place.
pub(crate) fn times(case: &[u8], at: usize) -> [u16; 8]
    requires { at + 15 < length case.now }
{
    std::array::from_fn(|i| octets::word_at(case, at + 2 * i))
}

// The eight numbers of eight octets at the front of a part.
pub(crate) fn rooms(part: &[u8]) -> [u64; 8] {
    std::array::from_fn(|i| octets::wide_at(part, 8 * i))
}
