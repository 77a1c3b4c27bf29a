// The headroom sum of document 01: from the rate, the cable, the largest frame and the delays to the room that a recorder keeps. Every
// input is answered: by the sum, item by item, or by document 01's refusal number.
#![tactic(auto)]

ghost use Rattle.std.specs.Prelude.{◌≡◌, [], ◌∷◌, ◌≤◌};
ghost use Rattle.ground.specs.First.{◌gives◌, first_of};
ghost use Rattle.refusals.specs.Refusals.{refused_or, number_of};
ghost use Rattle.units.specs.Units.{bits_of_octets, wire_time};
ghost use Rattle.limits.specs.Limits.{largest_m, largest_delay, largest_path};
ghost use Rattle.headroom_sum.specs.Link.{link_bits};
ghost use Rattle.headroom_sum.specs.Rates.{largest_rate, limit_order, limit_answer};
ghost use Rattle.headroom_sum.specs.Headroom.{largest_metres, least_percentage, largest_percentage, refused12};
ghost use Rattle.headroom_sum.specs.Headroom.{request_path, data_path, total_bits};
ghost use Rattle.headroom_sum.specs.Sum.{sum_order, summed, stations_over};
ghost use Rattle.headroom_sum.specs.Stages.{Linked, Pathed};

use limits::{LARGEST_DELAY, LARGEST_PATH};
use refusals::Refusal;
use room_to_keep::Kept;
use units::{BitTimes, Quanta};

// What is allowed of the cable: its metres, and the signal's speed in it as a percentage of light's.
const LARGEST_METRES: u64 = 100_000;

const LEAST_PERCENTAGE: u64 = 40;

const LARGEST_PERCENTAGE: u64 = 100;

// Light, in metres per second.
const LIGHT_SPEED: u64 = 299_792_458;

// What the sum is made of: the rate in Mb/s, the cable's metres, the signal's speed as a percentage of light's, the largest frame
// M in octets with FCS, and the delays in bit times. Any numbers may be given.
#[derive(Clone, Copy)]
pub struct Inputs {
    pub rate: u64,
    pub metres: u64,
    pub percentage: u64,
    pub largest: u64,
    pub generation: BitTimes,
    pub b_transmit: BitTimes,
    pub b_receive: BitTimes,
    pub a_transmit: BitTimes,
    pub a_receive: BitTimes,
    pub halt: BitTimes,
}

// The sum item by item: the link, the two paths and the total in bit times, and what is kept in octet times.
#[derive(Clone, Copy)]
pub struct Items {
    pub link: BitTimes,
    pub request_path: BitTimes,
    pub data_path: BitTimes,
    pub total: BitTimes,
    pub room: Kept,
}

// The limit of the halt delay at each rate in Mb/s: 6,144, 24,576 and 61,440 bits; 10 for a number that is no rate.
#[tactic(auto, using(crate::proofs::Rate::limited), unfolding(crate::specs::Rates::halt_limit, ground::specs::Pick::pick))]
pub fn halt_limit(rate: u64) -> Result<Quanta, Refusal>
    ensures number { number_of result ≡ first_of (limit_order rate) }
    ensures answer { result ≡ limit_answer rate }
{
    match rate {
        10_000 => Ok(Quanta(12)),
        40_000 => Ok(Quanta(48)),
        100_000 => Ok(Quanta(120)),
        _ => Err(Refusal::Rate),
    }
}

// The bit times that the link holds.
#[tactic(auto, unfolding(crate::specs::Link::link_bits))]
fn link_bits(metres: u64, rate: u64, percentage: u64) -> BitTimes
    requires { (metres ≤ largest_metres) × (rate ≤ largest_rate) × (least_percentage ≤ percentage) × (percentage ≤ largest_percentage) }
    ensures { (result.0 ≡ link_bits metres rate percentage) × (result.0 ≤ largest_path) }
{
    let parts = percentage * LIGHT_SPEED;
    BitTimes((metres * rate * 100_000_000 + (parts - 1)) / parts)
}

// The request path: B transmit + link + A receive + halt.
fn request_bits(inputs: Inputs, link: BitTimes) -> BitTimes
    requires { (inputs.b_transmit.0 ≤ largest_delay) × (inputs.a_receive.0 ≤ largest_delay) × (inputs.halt.0 ≤ largest_path) × (link.0 ≤ largest_path) }
    ensures { result.0 ≡ request_path inputs.b_transmit.0 link.0 inputs.a_receive.0 inputs.halt.0 }
{
    let there = units::sum_of_bits(inputs.b_transmit, link);
    units::sum_of_bits(units::sum_of_bits(there, inputs.a_receive), inputs.halt)
}

// The data path: A transmit + link + B receive.
fn data_bits(inputs: Inputs, link: BitTimes) -> BitTimes
    requires { (inputs.a_transmit.0 ≤ largest_delay) × (inputs.b_receive.0 ≤ largest_delay) × (link.0 ≤ largest_path) }
    ensures { result.0 ≡ data_path inputs.a_transmit.0 link.0 inputs.b_receive.0 }
{
    let there = units::sum_of_bits(inputs.a_transmit, link);
    units::sum_of_bits(there, inputs.b_receive)
}

// 8W, the wire time of the largest frame in bit times.
fn frame_bits(largest: u64) -> BitTimes
    requires { largest ≤ largest_m }
    ensures { result.0 ≡ bits_of_octets (wire_time largest) }
{
    units::bits_of_octets(units::wire_time(largest))
}

// The total in bit times: generation + 8W + 672 + request path + 8W + data path.
fn total_bits(largest: u64, generation: BitTimes, request: BitTimes, data: BitTimes) -> BitTimes
    requires { (largest ≤ largest_m) × (generation.0 ≤ largest_delay) × (request.0 ≤ largest_path) × («data».0 ≤ largest_path) }
    ensures { result.0 ≡ total_bits largest generation.0 request.0 «data».0 }
{
    let w = frame_bits(largest);
    let pfc = units::bits_of_octets(units::PFC_TIME);
    let asking = units::sum_of_bits(units::sum_of_bits(generation, w), pfc);
    let stopping = units::sum_of_bits(units::sum_of_bits(request, w), data);
    units::sum_of_bits(asking, stopping)
}

// 14 by the generation and the paths, then 19; else the sum.
fn after_paths(
    inputs: Inputs,
    link: BitTimes,
    request: BitTimes,
    data: BitTimes,
    halting: BitTimes,
) -> Result<Items, Refusal>
    requires { Pathed inputs link.0 request.0 «data».0 halting.0 }
    ensures { result ≡ summed inputs }
{
    let room = room_to_keep::keep(inputs.largest, inputs.generation, request, data)?; // 14: M passed 13
    if halting.0 < inputs.halt.0 {
        return Err(Refusal::Halt);
    }
    Ok(Items {
        link,
        request_path: request,
        data_path: data,
        total: total_bits(inputs.largest, inputs.generation, request, data),
        room,
    })
}

// 14 by a station delay.
#[tactic(auto, unfolding(ground::specs::Pick::pick))]
fn station_over(inputs: Inputs) -> bool
    ensures { result ≡ stations_over inputs }
{
    LARGEST_DELAY.0 < inputs.b_transmit.0
        || LARGEST_DELAY.0 < inputs.b_receive.0
        || LARGEST_DELAY.0 < inputs.a_transmit.0
        || LARGEST_DELAY.0 < inputs.a_receive.0
}

// 13, then 14 by a station delay or by a halt that is above a path's limit by itself; then the paths fit and are tried whole.
#[tactic(auto, using(crate::proofs::Order::past_stations))]
fn after_link(inputs: Inputs, link: BitTimes, halting: BitTimes) -> Result<Items, Refusal>
    requires { Linked inputs link.0 halting.0 }
    ensures { result ≡ summed inputs }
{
    if limits::is_outside_m(inputs.largest) {
        return Err(Refusal::LargestFrame);
    }
    if station_over(inputs) {
        return Err(Refusal::Delay);
    }
    if LARGEST_PATH.0 < inputs.halt.0 {
        return Err(Refusal::Delay); // by the halt alone: the request path holds it
    }
    let request = request_bits(inputs, link);
    let data = data_bits(inputs, link);
    after_paths(inputs, link, request, data, halting)
}

// 12: the percentage is outside its range.
#[tactic(auto, unfolding(ground::specs::Pick::pick))]
fn outside_percentage(percentage: u64) -> bool
    ensures { result ≡ refused12 percentage }
{
    !(LEAST_PERCENTAGE..=LARGEST_PERCENTAGE).contains(&percentage)
}

// 11, then 12.
#[tactic(auto, using(refusals::proofs::Refused::tried), unfolding(refusals::specs::Refusals::numbered_in, ground::specs::Pick::pick))]
fn cable_refusal(is_long: bool, is_outside: bool) -> Result<(), Refusal>
    ensures { result ≡ refused_or (first_of (is_long gives 11 ∷ is_outside gives 12 ∷ [])) tt }
{
    if is_long {
        return Err(Refusal::Metres);
    }
    if is_outside {
        return Err(Refusal::Percentage);
    }
    Ok(())
}

// The headroom sum. Refusals 10, 11, 12, 13, 14, 19: the first whose condition holds.
#[tactic(auto, using(crate::proofs::Exactly::told))]
pub fn sum(inputs: Inputs) -> Result<Items, Refusal>
    ensures number { number_of result ≡ first_of (sum_order inputs) }
    ensures answer { result ≡ summed inputs }
{
    let limit = halt_limit(inputs.rate)?;
    let is_long = LARGEST_METRES < inputs.metres;
    cable_refusal(is_long, outside_percentage(inputs.percentage))?;
    let link = link_bits(inputs.metres, inputs.rate, inputs.percentage);
    after_link(inputs, link, units::bits_of_quanta(limit))
}
