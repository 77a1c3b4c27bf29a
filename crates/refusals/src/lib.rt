// What document 01 refuses: each refusal by a name of its own, and its number.
#![tactic(auto)]

ghost use Rattle.std.specs.Prelude.{◌≡◌};
ghost use Rattle.refusals.specs.Refusals.{number, number_told};

// Document 01's refusals, each with its number there.
#[derive(Clone, Copy, Debug, PartialEq, Eq)]
pub enum Refusal {
    // reading a frame: shorter than 60 octets, longer than M - 4, a control frame for another address, one of another opcode
    FrameShort = 1,
    FrameLong = 2,
    OtherAddress = 3,
    OtherOpcode = 4,
    // building and sending one: a buffer or a control frame under 60 octets, a source with the group bit
    BufferShort = 5,
    GroupSource = 6,
    // the headroom sum: the rate, the cable's metres, the speed's percentage
    Rate = 10,
    Metres = 11,
    Percentage = 12,
    // M outside 64 to 9,216; a delay or a path above its limit
    LargestFrame = 13,
    Delay = 14,
    // settings: an enabled room too small, a pause time too short, the refresh outside its limits, a room or the hysteresis too large
    RoomSmall = 15,
    PauseShort = 16,
    Refresh = 17,
    RoomLarge = 18,
    // the headroom sum: a halt delay above the limit of its rate
    Halt = 19,
    // the choice: a front above 8, a front in a class that its map does not give, a map entry above 7
    FrontAbove = 20,
    FrontMisplaced = 21,
    ClassAbove = 22,
    // a record: a kind above 07, a body cut short
    Kind = 30,
    BodyShort = 31,
    // a step of the bench
    PriorityAbove = 32,
    Length = 33,
    WireBusy = 34,
    Paused = 35,
    UnderWay = 36,
    NoneEnded = 37,
    OtherLate = 38,
    NotDue = 39,
    Overrun = 40,
    TimeAbove = 41,
    NotHeld = 42,
    NotEnabled = 43,
    // an input: settings missing or repeated, too long
    Settings = 44,
    InputLong = 45,
}

impl Refusal {
    // Document 01's number of a refusal.
    pub fn number(self) -> u8
        ensures { result ≡ number self }
    {
        self as u8
    }
}

// What is told of a refusal, if there is one: its number, or 0.
pub fn number_told(refusal: Option<Refusal>) -> u8
    ensures { result ≡ number_told refusal }
{
    refusal.map_or(0, |refusal| refusal.number())
}
