// The PFC frame of document 01: its constants, and reading one. Any octets and any lengths are answered; no caller checks first.
#![tactic(auto)]

ghost use Rattle.std.specs.Prelude.{not, ◌&&◌, [], ◌∷◌, ◌≡◌, ◌-◌, ltb, eqb, Some, None};
ghost use Rattle.ground.specs.First.{first_of, ◌gives◌};
ghost use Rattle.ground.specs.Pick.{pick};
ghost use Rattle.octets.specs.Numbers.{address_at};
ghost use Rattle.refusals.specs.Refusals.{number_of, refused_or};
ghost use Rattle.frame.specs.Layout.{destination, opcode, pfc_opcode};
ghost use Rattle.frame.specs.Read.{is_accepted, is_control, reading_order, verdict, part_of, request_in};

use refusals::Refusal;

// The octets of a control frame, and the fewest of any frame.
pub const FRAME_OCTETS: usize = 60;
// The group address, 01-80-C2-00-00-01.
pub const GROUP: [u8; 6] = [0x01, 0x80, 0xC2, 0x00, 0x00, 0x01];
// The Length/Type of a control frame, 88-08.
pub const CONTROL_TYPE: u16 = 0x8808;
// The opcode of PFC, 01-01.
pub const PFC_OPCODE: u16 = 0x0101;

// What a PFC frame asks: the enable octet, whose bit n is e[n], and time[0] to time[7] in quanta, valid or not.
#[derive(Clone, Copy)]
pub struct Request {
    pub e: u8,
    pub times: [u16; 8],
}

// Refuses by the first of 13, 1 and 2 that holds: by whether M is outside its limits, the frame shorter than 60 octets, longer than
// M - 4. (They are tried before any octet is looked at: the frame's length is known then.)
#[tactic(auto, unfolding(crate::proofs::Reading::refused_or, crate::proofs::Reading::numbered_in, ground::specs::Pick::pick, ground::specs::First::first_of))]
fn size_refused(outside: bool, short: bool, long: bool) -> Result<(), Refusal>
    ensures { result ≡ refused_or (first_of (outside gives 13 ∷ short gives 1 ∷ long gives 2 ∷ [])) tt }
{
    if outside {
        return Err(Refusal::LargestFrame);
    }
    if short {
        return Err(Refusal::FrameShort);
    }
    if long {
        return Err(Refusal::FrameLong);
    }
    Ok(())
}

// Refuses by the first of 3 and 4 that holds: a control frame for another address, one of another opcode.
#[tactic(auto, unfolding(crate::proofs::Reading::refused_or, crate::proofs::Reading::numbered_in, ground::specs::Pick::pick, ground::specs::First::first_of))]
fn control_refused(elsewhere: bool, other: bool) -> Result<(), Refusal>
    ensures { result ≡ refused_or (first_of (elsewhere gives 3 ∷ other gives 4 ∷ [])) tt }
{
    if elsewhere {
        return Err(Refusal::OtherAddress);
    }
    if other {
        return Err(Refusal::OtherOpcode);
    }
    Ok(())
}

// Whether a frame is longer than M - 4, which is 0 for an M below 4.
fn is_long(size: u64, largest: u64) -> bool
    ensures { result ≡ ltb (largest - 4) size }
{
    largest.saturating_sub(4) < size
}

#[tactic(auto, unfolding(crate::specs::Read::is_accepted, ground::specs::Pick::pick))]
fn is_accepted(own: u64, to: u64) -> bool
    ensures { result ≡ is_accepted own to }
{
    to == octets::address_at(&GROUP, 0) || to == own
}

// The request of a frame that carries one.
fn request_in(frame: &[u8]) -> Request
    ensures { result ≡ request_in frame.now }
{
    Request {
        e: octets::octet_at(frame, 17),
        times: std::array::from_fn(|n| octets::word_at(frame, 18 + 2 * n)),
    }
}

#[tactic(auto, unfolding(crate::specs::Read::is_control))]
fn is_control(frame: &[u8]) -> bool
    ensures { result ≡ is_control frame.now }
{
    octets::word_at(frame, 12) == CONTROL_TYPE
}

// Whether it is a control frame for another address.
fn is_elsewhere(control: bool, own: [u8; 6], frame: &[u8]) -> bool
    ensures { result ≡ control && not (is_accepted (address_at own 0) (destination frame.now)) }
{
    control && !is_accepted(octets::address_at(&own, 0), octets::address_at(frame, 0))
}

// Whether it is a control frame of another opcode.
fn is_other(control: bool, frame: &[u8]) -> bool
    ensures { result ≡ control && not (eqb (opcode frame.now) pfc_opcode) }
{
    control && octets::word_at(frame, 14) != PFC_OPCODE
}

// What a frame that is not refused asks: a control frame's request; data asks nothing.
#[tactic(auto, unfolding(ground::specs::Pick::pick))]
fn taken(control: bool, frame: &[u8]) -> Option<Request>
    ensures { result ≡ pick control (Some (request_in frame.now)) None }
{
    control.then(|| request_in(frame))
}

// What a frame asks of a station with this own address, where the largest frame is M; None where it is data. Document 01's order: refusals
// 13, 1, 2, then data, then 3, 4, else the request. The first octet of the enable vector and octets 34 on are not looked at.
pub fn read(frame: &[u8], largest: u64, own: [u8; 6]) -> Result<Option<Request>, Refusal>
    ensures number { number_of result ≡ first_of (reading_order frame.now largest own) }
    ensures answer { result ≡ verdict frame.now largest own }
{
    let short = frame.len() < FRAME_OCTETS;
    let long = is_long(frame.len() as u64, largest);
    size_refused(limits::is_outside_m(largest), short, long)?;
    let control = is_control(frame);
    let elsewhere = is_elsewhere(control, own, frame);
    control_refused(elsewhere, is_other(control, frame))?;
    Ok(taken(control, frame))
}

// The part of a data frame from octet 12 on, the caller's own octets; of any other frame an empty part.
#[tactic(auto, using(crate::proofs::Reading::data_is_sized), unfolding(crate::specs::Read::part_for))]
pub fn part(frame: &[u8], largest: u64, own: [u8; 6]) -> &[u8]
    ensures { result.now ≡ part_of frame.now largest own }
{
    match read(frame, largest, own) {
        Ok(None) => &frame[12..],
        _ => &frame[frame.len()..],
    }
}
