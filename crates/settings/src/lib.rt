// The recorder's settings: refused by document 01's numbers in its order, or accepted with the sums that watching needs.
#![tactic(auto)]

ghost use Rattle.std.specs.Prelude.{◌≡◌, false, ◌&&◌, [], ◌∷◌, ℕ, ◌^◌, ◌+◌, ◌<◌, ltb, get_or};
ghost use Rattle.ground.specs.Eight.{eight};
ghost use Rattle.ground.specs.First.{◌gives◌, first_of};
ghost use Rattle.refusals.specs.Refusals.{refused_or, number_of};
ghost use Rattle.settings.specs.Settings.{is_enabled, room_of, some_enabled, some_room_below, refused17, refused18, refused16};
ghost use Rattle.settings.specs.Settings.{settings_order, settling};
ghost use Rattle.settings.specs.Between.{house_refusal, Carries};

use refusals::Refusal;
use room_to_keep::Kept;
use units::{BitTimes, OctetTimes, Quanta};

// Enabled priorities (bit n is priority n), the largest frame M in octets, generation, request path and data path in bit times, the
// pause time T in quanta, the refresh I in octet times, the hysteresis and the eight rooms in octets. Any numbers may be given.
#[derive(Clone, Copy)]
pub struct Settings {
    pub enabled: u8,
    pub largest: u64,
    pub generation: BitTimes,
    pub request_path: BitTimes,
    pub data_path: BitTimes,
    pub pause: u16,
    pub refresh: OctetTimes,
    pub hysteresis: u64,
    pub rooms: [u64; 8],
}

// What 17 and 18 allow: the refresh in octet times, a room or the hysteresis in octets.
const LEAST_REFRESH: u64 = 1;

const LARGEST_REFRESH: u64 = 4_194_304;

const LARGEST_ROOM: u64 = 1_073_741_824;

// Whether a priority is enabled; a number above 7 is no priority.
#[tactic(auto, unfolding(crate::specs::Settings::is_enabled, ground::specs::Pick::pick))]
pub fn is_enabled(enabled: u8, priority: u8) -> bool
    ensures { result ≡ is_enabled enabled priority }
{
    priority < 8 && octets::is_set(enabled, priority)
}

// Which rooms are below a number of octets.
fn below(rooms: [u64; 8], least: u64) -> [bool; 8]
    ensures { result ≡ eight (λ (n : ℕ). ltb (room_of rooms n) least) }
{
    std::array::from_fn(|n| rooms[n] < least)
}

// Which rooms are above a number of octets.
fn above(rooms: [u64; 8], most: u64) -> [bool; 8]
    ensures { result ≡ eight (λ (n : ℕ). ltb most (room_of rooms n)) }
{
    std::array::from_fn(|n| most < rooms[n])
}

// The marks that are set on both sides.
fn both(one: [bool; 8], other: [bool; 8]) -> [bool; 8]
    ensures { result ≡ eight (λ (n : ℕ). get_or one n false && get_or other n false) }
{
    std::array::from_fn(|n| one[n] & other[n])
}

// Whether a mark of an enabled priority is set.
#[tactic(auto, using(crate::proofs::Settled::some_of_both), unfolding(ground::specs::Pick::pick))]
fn some_enabled(enabled: u8, marks: [bool; 8]) -> bool
    ensures { result ≡ some_enabled enabled (λ (n : ℕ). get_or marks n false) }
{
    octets::some_of(both(octets::bits(enabled), marks))
}

#[tactic(auto, unfolding(ground::specs::Pick::pick))]
fn refused_17(refresh: OctetTimes) -> bool
    ensures { result ≡ refused17 refresh.0 }
{
    !(LEAST_REFRESH..=LARGEST_REFRESH).contains(&refresh.0)
}

#[tactic(auto, using(crate::proofs::Settled::some_marked), unfolding(ground::specs::Pick::pick))]
fn refused_18(enabled: u8, rooms: [u64; 8], hysteresis: u64) -> bool
    ensures { result ≡ refused18 enabled rooms hysteresis }
{
    LARGEST_ROOM < hysteresis || some_enabled(enabled, above(rooms, LARGEST_ROOM))
}

fn refused_16(pause: u16, refresh: OctetTimes, one_way: OctetTimes) -> bool
    ensures { result ≡ refused16 pause refresh.0 one_way.0 }
{
    let paused = units::octets_of_quanta(Quanta(u64::from(pause)));
    let least = units::later(units::later(refresh, one_way), units::QUANTUM);
    paused.0 < least.0
}

#[tactic(auto, using(crate::proofs::Settled::some_marked))]
fn refused_15(enabled: u8, rooms: [u64; 8], headroom: u64, largest: u64, hysteresis: u64) -> bool
    requires { headroom + largest + hysteresis < 2 ^ 64 }
    ensures { result ≡ some_room_below enabled rooms (headroom + largest + hysteresis) }
{
    some_enabled(enabled, below(rooms, headroom + largest + hysteresis))
}

// 17, 18 and 16 in their order.
#[tactic(auto, using(refusals::proofs::Refused::tried), unfolding(refusals::specs::Refusals::numbered_in, ground::specs::Pick::pick))]
fn bounds_refusal(is_17: bool, is_18: bool, is_16: bool) -> Result<(), Refusal>
    ensures { result ≡ refused_or (first_of (is_17 gives 17 ∷ is_18 gives 18 ∷ is_16 gives 16 ∷ [])) tt }
{
    if is_17 {
        return Err(Refusal::Refresh);
    }
    if is_18 {
        return Err(Refusal::RoomLarge);
    }
    if is_16 {
        return Err(Refusal::PauseShort);
    }
    Ok(())
}

// 17, 18, 16 and 15, of settings that 13 and 14 passed.
fn house_refusal(s: Settings, kept: Kept) -> Result<(), Refusal>
    requires { Carries s kept }
    ensures { result ≡ refused_or (house_refusal s) tt }
{
    let rooms = s.rooms;
    let is_17 = refused_17(s.refresh);
    let is_18 = refused_18(s.enabled, rooms, s.hysteresis);
    let is_16 = refused_16(s.pause, s.refresh, kept.one_way);
    bounds_refusal(is_17, is_18, is_16)?;
    if refused_15(s.enabled, rooms, kept.headroom.0, s.largest, s.hysteresis) {
        return Err(Refusal::RoomSmall);
    }
    Ok(())
}

// Accepted with G, W, P, D, the one-way time and the headroom, or refused: 13, 14, 17, 18, 16, 15 in this order. Rooms of priorities
// that are not enabled are not looked at.
#[tactic(auto, using(crate::proofs::Settled::carries))]
pub fn settle(s: Settings) -> Result<Kept, Refusal>
    ensures number { number_of result ≡ first_of (settings_order s) }
    ensures answer { result ≡ settling s }
{
    let kept = room_to_keep::keep(s.largest, s.generation, s.request_path, s.data_path)?;
    house_refusal(s, kept)?;
    Ok(kept)
}
