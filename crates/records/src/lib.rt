// A record of the bench, taken from its octets.
#![tactic(auto)]

ghost use Rattle.std.specs.Prelude.{◌≡◌, ◌<◌, ◌≤◌, ◌+◌, length};
ghost use Rattle.ground.specs.First.{first_of};
ghost use Rattle.refusals.specs.Refusals.{number_of, refused_or};
ghost use Rattle.records.specs.Records.{body_length, body_of, is_repeated, record_order, octets_refusal, decoded};

use refusals::Refusal;

// What a record asks, with its numbers.
#[derive(Clone, Copy)]
pub enum Record {
    // n octet times pass
    Wait(u16),
    // A starts a data frame: priority, length
    StartData(u8, u16),
    // the oldest data frame reaches B
    Arrive,
    // B starts some other frame: length
    StartOther(u16),
    // B starts the PFC frame
    StartPfc,
    // the oldest PFC frame takes effect at A
    TakeEffect,
    // B's disk takes octets: priority, octets
    TakeOctets(u8, u16),
}

// The octets of a kind's body.
#[tactic(auto, using(ground::proofs::Tests::tests), unfolding(ground::specs::Pick::pick, crate::specs::Records::body_length))]
pub fn body_length(kind: u8) -> usize
    ensures { (result ≡ body_length kind) × (result ≤ 57) }
{
    match kind {
        0 => 57,
        1 | 4 => 2,
        2 | 7 => 3,
        _ => 0,
    }
}

#[tactic(auto, unfolding(ground::specs::Pick::pick, crate::specs::Records::body_of))]
fn body(kind: u8, octets: &[u8]) -> Record
    ensures { result ≡ body_of kind octets.now }
{
    match kind {
        1 => Record::Wait(octets::word_at(octets, 1)),
        2 => Record::StartData(octets::octet_at(octets, 1), octets::word_at(octets, 2)),
        3 => Record::Arrive,
        4 => Record::StartOther(octets::word_at(octets, 1)),
        5 => Record::StartPfc,
        6 => Record::TakeEffect,
        _ => Record::TakeOctets(octets::octet_at(octets, 1), octets::word_at(octets, 2)),
    }
}

// Settings repeated; no octets at all are none.
#[tactic(auto, unfolding(crate::specs::Records::is_repeated, ground::specs::Pick::pick))]
fn is_repeated(kind: u8, size: usize) -> bool
    ensures { result ≡ is_repeated kind size }
{
    size > 0 && kind == 0
}

// 44, 30 and 31 of a record of this kind with this many octets, of which its kind has a whole count, in their order.
#[tactic(auto, unfolding(crate::proofs::Decoding::refused_or, crate::proofs::Decoding::numbered_in, ground::specs::Pick::pick, ground::specs::First::first_of))]
fn is_whole(kind: u8, size: usize, whole: usize) -> Result<(), Refusal>
    ensures { result ≡ refused_or (first_of (record_order kind size whole)) tt }
{
    if is_repeated(kind, size) {
        return Err(Refusal::Settings);
    }
    if 7 < kind {
        return Err(Refusal::Kind);
    }
    if size < whole {
        return Err(Refusal::BodyShort);
    }
    Ok(())
}

// What the octets of a record after the settings ask; octets past the record are not looked at.
pub fn decode(octets: &[u8]) -> Result<Record, Refusal>
    ensures number { number_of result ≡ octets_refusal octets.now }
    ensures answer { result ≡ decoded octets.now }
{
    let kind = octets::octet_at(octets, 0);
    is_whole(kind, octets.len(), 1 + body_length(kind))?;
    Ok(body(kind, octets))
}
