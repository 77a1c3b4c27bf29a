// One room and the mark of the priorities that share it: here each enabled priority has a room of its own.
#![tactic(auto)]

ghost use Rattle.std.specs.Prelude.{◌≡◌, ◌+◌, ◌-◌};
ghost use Rattle.rooms.specs.Room.{arrived_in, taken_from, room_in, numbers_of, limits_for};
ghost use Rattle.rooms.specs.Room.{free_of, held_after, dropped_after, span_after, span_kept, wanted_after};
ghost use Rattle.units.specs.Units.{within64};

// What is held, what was dropped, whether pause is wanted, the octets that arrived in the present wanted span (the crossing frame
// not counted) and the largest such count so far.
#[derive(Clone, Copy)]
pub struct Room {
    pub held: u64,
    pub dropped: u64,
    pub wanted: bool,
    pub span: u64,
    pub worst: u64,
}

// The room's size, and the free room below which pause is wanted and from which it is no longer wanted, in octets.
#[derive(Clone, Copy)]
pub struct Limits {
    pub size: u64,
    pub mark: u64,
    pub resume: u64,
}

// The limits of a room of this size for a headroom, a largest frame and a hysteresis, all in octets.
pub fn limits_for(size: u64, headroom: u64, largest: u64, hysteresis: u64) -> Limits
    ensures { result ≡ limits_for size headroom largest hysteresis }
{
    let mark = headroom.saturating_add(largest);
    Limits {
        size,
        mark,
        resume: mark.saturating_add(hysteresis),
    }
}

// The room that four kept numbers and its wanted mark stand for.
pub fn room_in(numbers: [u64; 4], wanted: bool) -> Room
    ensures { result ≡ room_in numbers wanted }
{
    Room {
        held: numbers[0],
        dropped: numbers[1],
        wanted,
        span: numbers[2],
        worst: numbers[3],
    }
}

// The four numbers that are kept of a room beside its wanted mark: held, dropped, span, worst.
pub fn numbers_of(room: Room) -> [u64; 4]
    ensures { result ≡ numbers_of room }
{
    [room.held, room.dropped, room.span, room.worst]
}

// What is free of a room, and none where more is held than it has.
fn free(size: u64, held: u64) -> u64
    ensures { result ≡ free_of size held }
{
    size.saturating_sub(held)
}

// What is held and what was dropped after a frame of this length: held where it fits, else dropped and its octets counted.
#[tactic(auto, unfolding(ground::specs::Pick::pick, crate::specs::Room::held_after, crate::specs::Room::dropped_after))]
fn placed(size: u64, held: u64, dropped: u64, length: u64) -> (u64, u64)
    ensures { (result.0 ≡ held_after size held length) × (result.1 ≡ dropped_after size held dropped length) }
{
    if length <= free(size, held) {
        (held + length, dropped)
    } else {
        (held, dropped.saturating_add(length))
    }
}

#[tactic(auto, unfolding(crate::specs::Room::span_after, ground::specs::Pick::pick))]
fn span_after(wanted: bool, span: u64, length: u64) -> u64
    ensures { result ≡ span_after wanted span length }
{
    if wanted {
        span.saturating_add(length)
    } else {
        0
    }
}

#[tactic(auto, unfolding(ground::specs::Pick::pick, crate::specs::Room::span_kept))]
fn span_kept(wanted: bool, span: u64) -> u64
    ensures { result ≡ span_kept wanted span }
{
    if wanted { span } else { 0 }
}

// Whether pause is wanted once this much is free: below the mark yes, from the resume mark on no, between the two as before.
#[tactic(auto, unfolding(ground::specs::Pick::pick, crate::specs::Room::wanted_after))]
fn wanted_after(limits: Limits, free: u64, before: bool) -> bool
    ensures { result ≡ wanted_after limits free before }
{
    free < limits.mark || before && free < limits.resume
}

// The room after a frame of this length arrived: held where it fits, else dropped and its octets counted; then the marks are tried.
#[tactic(auto, unfolding(crate::specs::Room::arrived_in))]
pub fn arrived(room: Room, limits: Limits, length: u64) -> Room
    ensures { result ≡ arrived_in limits room length }
{
    let (held, dropped) = placed(limits.size, room.held, room.dropped, length);
    let span = span_after(room.wanted, room.span, length);
    Room {
        held,
        dropped,
        wanted: wanted_after(limits, free(limits.size, held), room.wanted),
        span,
        worst: room.worst.max(span),
    }
}

// The room after octets were taken, at most those that are held; then the marks are tried.
#[tactic(auto, unfolding(crate::specs::Room::taken_from))]
pub fn taken(room: Room, limits: Limits, octets: u64) -> Room
    ensures { result ≡ taken_from limits room octets }
{
    let held = room.held.saturating_sub(octets);
    let still = wanted_after(limits, free(limits.size, held), room.wanted);
    Room {
        held,
        wanted: still,
        span: span_kept(still, room.span),
        ..room
    }
}
