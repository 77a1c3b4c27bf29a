// Building the PFC frame of document 01 in a buffer that the caller lends.
#![tactic(auto)]

ghost use Rattle.std.specs.Prelude.{◌≡◌, ◌++◌, ◌≤◌, length, replicate};
ghost use Rattle.ground.specs.First.{first_of};
ghost use Rattle.refusals.specs.Refusals.{number_of, refused_or};
ghost use Rattle.frame_build.specs.Build.{order_by, building_order, build_verdict, put_before, buffer_after, lead_octets, all_time_octets};

use refusals::Refusal;

// The octets of eight times, two each. (Written one by one: the compiler then stores the octets of several times in one go.)
fn time_octets(times: [u16; 8]) -> [u8; 16]
    ensures { result ≡ all_time_octets times }
{
    let t0 = octets::word_octets(times[0]);
    let t1 = octets::word_octets(times[1]);
    let t2 = octets::word_octets(times[2]);
    let t3 = octets::word_octets(times[3]);
    let t4 = octets::word_octets(times[4]);
    let t5 = octets::word_octets(times[5]);
    let t6 = octets::word_octets(times[6]);
    let t7 = octets::word_octets(times[7]);
    [
        t0[0], t0[1], t1[0], t1[1], t2[0], t2[1], t3[0], t3[1], t4[0], t4[1], t5[0], t5[1], t6[0],
        t6[1], t7[0], t7[1],
    ]
}

// The octets before the times, in document 01's order: destination, source, Length/Type, opcode, enable vector. (One by one, as the document
// lists them.)
fn lead_octets(source: [u8; 6], e: u8) -> [u8; 18]
    ensures { result ≡ lead_octets source e }
{
    let control_type = frame::CONTROL_TYPE.to_be_bytes();
    let opcode = frame::PFC_OPCODE.to_be_bytes();
    [
        frame::GROUP[0],
        frame::GROUP[1],
        frame::GROUP[2],
        frame::GROUP[3],
        frame::GROUP[4],
        frame::GROUP[5],
        source[0],
        source[1],
        source[2],
        source[3],
        source[4],
        source[5],
        control_type[0],
        control_type[1],
        opcode[0],
        opcode[1],
        0,
        e,
    ]
}

// The 60 octets of a frame: those before the times, the times, zeroes.
fn frame_octets(lead: [u8; 18], times: [u8; 16]) -> [u8; frame::FRAME_OCTETS]
    ensures { result ≡ lead ++ times ++ replicate 26 0 }
{
    let mut made = [0u8; frame::FRAME_OCTETS];
    made[..18].copy_from_slice(&lead);
    made[18..34].copy_from_slice(&times);
    made
}

// Refuses by the first of 5 and 6 that holds: by the buffer's length and the source's first octet.
#[tactic(auto, unfolding(crate::proofs::Building::refused_or, crate::proofs::Building::numbered_in, ground::specs::Pick::pick, ground::specs::First::first_of))]
fn refused(size: usize, first: u8) -> Result<(), Refusal>
    ensures { result ≡ refused_or (first_of (order_by size first)) tt }
{
    if size < frame::FRAME_OCTETS {
        return Err(Refusal::BufferShort);
    }
    if first % 2 == 1 {
        return Err(Refusal::GroupSource);
    }
    Ok(())
}

// Puts octets at the front of a buffer that has room for them, and changes none after them.
fn put(made: &[u8], buffer: &mut [u8])
    requires { length made.now ≤ length buffer.old }
    ensures { buffer.new ≡ put_before made.now buffer.old }
{
    buffer[..made.len()].copy_from_slice(made);
}

// Writes the PFC frame with this source, enable octet and times into the buffer's first 60 octets and leaves the rest. A buffer under
// 60 octets is refused with 5, a source with the group bit with 6, and then no octet changes.
pub fn build(buffer: &mut [u8], source: [u8; 6], e: u8, times: [u16; 8]) -> Result<(), Refusal>
    ensures number { number_of result ≡ first_of (building_order (length buffer.old) source) }
    ensures answer { result ≡ build_verdict (length buffer.old) source }
    ensures octets { buffer.new ≡ buffer_after source e times buffer.old }
{
    refused(buffer.len(), source[0])?;
    let made = frame_octets(lead_octets(source, e), time_octets(times));
    put(&made, buffer);
    Ok(())
}
