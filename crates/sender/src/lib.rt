// The sender at B: which of two lent frames goes next.
#![tactic(auto)]

ghost use Rattle.std.specs.Prelude.{◌≡◌};
ghost use Rattle.sender.specs.Sender.{send_refusal, to_send};

use refusals::Refusal;

// The octets of a control frame that go; its FCS is not among them.
const FRAME_OCTETS: usize = 60;

// Refuses with 5 a control frame under 60 octets, due or not; None for any other.
#[tactic(auto, unfolding(crate::proofs::Sending::refusal_if, crate::proofs::Sending::numbered_in, ground::specs::Pick::pick))]
pub fn send_refusal(control: &[u8]) -> Option<Refusal>
    ensures { result ≡ send_refusal control.now }
{
    (control.len() < FRAME_OCTETS).then_some(Refusal::BufferShort)
}

// The frame to go: the first 60 octets of the control frame when PFC is due, else the whole data frame, which may be empty; an
// empty part where the control frame is refused with 5.
#[tactic(auto, unfolding(ground::specs::Pick::pick, crate::specs::Sender::to_send))]
pub fn to_send<'a>(control: &'a [u8], data: &'a [u8], due: bool) -> &'a [u8]
    ensures { result.now ≡ to_send control.now «data».now due }
{
    let Some(sent) = control.get(..FRAME_OCTETS) else {
        return &control[..0];
    };
    if due { sent } else { data }
}
