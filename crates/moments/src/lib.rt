// Moments in octet times since the start, or none: when PFC is due, when a frame's wire time ends, and when a bound is passed.
#![tactic(auto)]

ghost use Rattle.std.specs.Prelude.{◌≡◌};
ghost use Rattle.moments.specs.Moments.{is_never, is_ahead, past_due, due_on, refresh_from, due_by};

use units::OctetTimes;

// A moment, or none.
pub type Moment = Option<OctetTimes>;

// Whether there is no moment.
#[tactic(auto, unfolding(crate::specs::Moments::is_never))]
pub fn is_never(moment: Moment) -> bool
    ensures { result ≡ is_never moment }
{
    moment.is_none()
}

// Whether a moment is still ahead; where there is none, it is.
#[tactic(auto, unfolding(crate::specs::Moments::is_ahead))]
pub fn is_ahead(moment: Moment, clock: OctetTimes) -> bool
    ensures { result ≡ is_ahead moment clock.0 }
{
    moment.is_none_or(|first| clock < first)
}

// Whether the clock is past a moment, if there is one, by more than a bound.
#[tactic(auto, unfolding(crate::specs::Moments::past_due))]
pub fn past(moment: Moment, bound: OctetTimes, clock: OctetTimes) -> bool
    ensures { result ≡ past_due moment bound.0 clock.0 }
{
    moment.is_some_and(|first| first <= clock && bound.0 < clock.0 - first.0)
}

// Due from the clock on where a mark changed, unless PFC is due already: its first moment stands.
#[tactic(auto, unfolding(crate::specs::Moments::due_on))]
pub fn due_on(changed: bool, clock: OctetTimes, due: Moment) -> Moment
    ensures { result ≡ due_on changed clock.0 due }
{
    due.or(changed.then_some(clock))
}

// The moment from which the refresh has passed since the last PFC frame started; none where no PFC frame has started.
#[tactic(auto, unfolding(crate::specs::Moments::refresh_from))]
pub fn refresh_from(last: Moment, refresh: OctetTimes) -> Moment
    ensures { result ≡ refresh_from last refresh.0 }
{
    last.map(|started| units::later(started, refresh))
}

// Since when a PFC frame is due once the clock stands here, where the refresh makes one due from a moment on.
#[tactic(auto, unfolding(ground::specs::Pick::pick, crate::specs::Moments::due_by))]
pub fn due_by(refresh: Moment, clock: OctetTimes, due: Moment) -> Moment
    ensures { result ≡ due_by refresh clock.0 due }
{
    due.or(refresh.filter(|moment| *moment <= clock))
}
