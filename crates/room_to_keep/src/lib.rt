// How much room a recorder keeps so that nothing is lost while a pause request takes effect, in octet times: from the largest frame
// M and the bits of the generation delay and of the two paths. Every input is answered: by what is kept, or by 13 or 14.
#![tactic(auto)]

ghost use Rattle.std.specs.Prelude.{◌≡◌, [], ◌∷◌, ◌+◌, ◌≤◌};
ghost use Rattle.ground.specs.First.{◌gives◌, first_of};
ghost use Rattle.refusals.specs.Refusals.{refused_or, number_of};
ghost use Rattle.units.specs.Units.{octets_of_bits, wire_time};
ghost use Rattle.limits.specs.Limits.{largest_m, largest_delay, largest_path};
ghost use Rattle.room_to_keep.specs.Keep.{one_way, most_one_way, refused14, keep_order, kept, keeping};

use limits::{LARGEST_DELAY, LARGEST_PATH};
use refusals::Refusal;
use units::{BitTimes, OctetTimes};

// What is kept in octet times: G, W, P, D, the one-way time and the headroom.
#[derive(Clone, Copy)]
pub struct Kept {
    pub generation: OctetTimes,
    pub wire: OctetTimes,
    pub request: OctetTimes,
    pub data: OctetTimes,
    pub one_way: OctetTimes,
    pub headroom: OctetTimes,
}

// The one-way time: G + W + 84 + P, G and P rounded up.
fn one_way_time(largest: u64, generation: BitTimes, request: BitTimes) -> OctetTimes
    requires { (largest ≤ largest_m) × (generation.0 ≤ largest_delay) × (request.0 ≤ largest_path) }
    ensures { result.0 ≡ one_way largest generation.0 request.0 }
{
    let g = units::octets_of_bits(generation);
    let w = units::wire_time(largest);
    let p = units::octets_of_bits(request);
    units::later(units::later(units::later(g, w), units::PFC_TIME), p)
}

// The headroom: one-way time + W + D, D rounded up.
fn headroom_time(largest: u64, one_way: OctetTimes, data: BitTimes) -> OctetTimes
    requires { (largest ≤ largest_m) × (one_way.0 ≤ most_one_way) × («data».0 ≤ largest_path) }
    ensures { result.0 ≡ one_way.0 + wire_time largest + octets_of_bits «data».0 }
{
    let w = units::wire_time(largest);
    let d = units::octets_of_bits(data);
    units::later(units::later(one_way, w), d)
}

fn room_of(largest: u64, generation: BitTimes, request: BitTimes, data: BitTimes) -> Kept
    requires { (largest ≤ largest_m) × (generation.0 ≤ largest_delay) × (request.0 ≤ largest_path) × («data».0 ≤ largest_path) }
    ensures { result ≡ kept largest generation.0 request.0 «data».0 }
{
    let one_way = one_way_time(largest, generation, request);
    Kept {
        generation: units::octets_of_bits(generation),
        wire: units::wire_time(largest),
        request: units::octets_of_bits(request),
        data: units::octets_of_bits(data),
        one_way,
        headroom: headroom_time(largest, one_way, data),
    }
}

// 14 by the generation or by a path.
#[tactic(auto, unfolding(ground::specs::Pick::pick))]
fn over(generation: BitTimes, request: BitTimes, data: BitTimes) -> bool
    ensures { result ≡ refused14 generation.0 request.0 «data».0 }
{
    LARGEST_DELAY.0 < generation.0 || LARGEST_PATH.0 < request.0 || LARGEST_PATH.0 < data.0
}

// 13, then 14.
#[tactic(auto, using(refusals::proofs::Refused::tried), unfolding(refusals::specs::Refusals::numbered_in, ground::specs::Pick::pick))]
fn first_of(is_outside: bool, is_over: bool) -> Result<(), Refusal>
    ensures { result ≡ refused_or (first_of (is_outside gives 13 ∷ is_over gives 14 ∷ [])) tt }
{
    if is_outside {
        return Err(Refusal::LargestFrame);
    }
    if is_over {
        return Err(Refusal::Delay);
    }
    Ok(())
}

// What is kept for a largest frame M, a generation delay and the bits of the two paths. Refusals 13 and 14: the first that holds.
#[tactic(auto, using(crate::proofs::Exactly::told), unfolding(refusals::specs::Refusals::refused_or, ground::specs::Pick::pick, crate::specs::Keep::keeping))]
pub fn keep(
    largest: u64,
    generation: BitTimes,
    request: BitTimes,
    data: BitTimes,
) -> Result<Kept, Refusal>
    ensures number { number_of result ≡ first_of (keep_order largest generation.0 request.0 «data».0) }
    ensures answer { result ≡ keeping largest generation.0 request.0 «data».0 }
{
    first_of(
        limits::is_outside_m(largest),
        over(generation, request, data),
    )?;
    Ok(room_of(largest, generation, request, data))
}
