// Station B, the recorder of document 01: its rooms, and the marks that they set. It knows nothing of the bench. The numbers of the eight
// rooms are lent, four a room (held, dropped, span, worst); the marks, which are few, go by value.
#![tactic(auto)]

ghost use Rattle.std.specs.Prelude.{◌≡◌};
ghost use Rattle.refusals.specs.Refusals.{number_of, refused_or};
ghost use Rattle.settings.specs.Settings.{room_of};
ghost use Rattle.recorder.specs.Watching.{recorder_of, limits_of, arrived_with, refusal_with, marks_or, leaves_with};

use marks::Marks;
use refusals::Refusal;
use room_to_keep::Kept;
use rooms::Limits;
use settings::Settings;
use units::OctetTimes;

// Accepted settings with the sums that they carry.
#[derive(Clone, Copy)]
pub struct Watch {
    pub settings: Settings,
    pub kept: Kept,
}

// The room's size and marks of a priority; a number above 7 has no room.
#[tactic(auto, unfolding(ground::specs::Pick::pick, crate::specs::Watching::limits_of))]
pub fn limits_of(watch: Watch, priority: u8) -> Limits
    ensures { result ≡ limits_of watch priority }
{
    rooms::limits_for(
        size_of(watch.settings.rooms, priority),
        watch.kept.headroom.0,
        watch.settings.largest,
        watch.settings.hysteresis,
    )
}

// A priority's own of the eight sizes; a number above 7 has none.
fn size_of(sizes: [u64; 8], priority: u8) -> u64
    ensures { result ≡ room_of sizes priority }
{
    sizes.get(usize::from(priority)).copied().unwrap_or(0)
}

// A frame of this priority and length arrives at a room with these limits: it is held where it fits, else dropped and counted, and the
// marks are tried. A priority that is not enabled, or above 7, changes nothing.
#[tactic(auto, using(settings::proofs::SettingsLaws::enabled_below), unfolding(crate::specs::Watching::arrived_with, ground::specs::Pick::pick))]
pub fn arrived(
    numbers: &mut [[u64; 4]; 8],
    marks: Marks,
    enabled: u8,
    limits: Limits,
    priority: u8,
    length: u64,
    clock: OctetTimes,
) -> Marks
    ensures { recorder_of numbers.new result ≡ arrived_with enabled limits (recorder_of numbers.old marks) priority length clock.0 }
{
    if settings::is_enabled(enabled, priority) {
        let n = usize::from(priority);
        let before = rooms::room_in(numbers[n], marks.wanted[n]);
        let room = rooms::arrived(before, limits, length);
        numbers[n] = rooms::numbers_of(room);
        marks::with_mark(marks, priority, room.wanted, clock)
    } else {
        marks
    }
}

// Octets of a priority are taken from a room with these limits: 32, 43 and 42 in this order, else they leave it and the marks are tried. A
// refusal leaves the numbers as they were.
pub fn taken(
    numbers: &mut [[u64; 4]; 8],
    marks: Marks,
    enabled: u8,
    limits: Limits,
    priority: u8,
    octets: u64,
    clock: OctetTimes,
) -> Result<Marks, Refusal>
    ensures number { number_of result ≡ refusal_with enabled (recorder_of numbers.old marks) priority octets }
    ensures answer { result ≡ refused_or (refusal_with enabled (recorder_of numbers.old marks) priority octets) (marks_or result marks) }
    ensures leaves { recorder_of numbers.new (marks_or result marks)
        ≡ leaves_with enabled limits (recorder_of numbers.old marks) priority octets clock.0 }
{
    if 7 < priority {
        return Err(Refusal::PriorityAbove);
    }
    if !settings::is_enabled(enabled, priority) {
        return Err(Refusal::NotEnabled);
    }
    let n = usize::from(priority);
    let was = rooms::room_in(numbers[n], marks.wanted[n]);
    if was.held < octets {
        return Err(Refusal::NotHeld);
    }
    let room = rooms::taken(was, limits, octets);
    numbers[n] = rooms::numbers_of(room);
    Ok(marks::with_mark(marks, priority, room.wanted, clock))
}
