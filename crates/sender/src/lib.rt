// The sending end of a link. A call that is refused leaves it as it is.
#![tactic(auto)]

ghost use Rattle.std.specs.Prelude.{◌≡◌, true, [], ◌∷◌, ◌+◌, ◌≤◌, ◌<◌, length};
ghost use Rattle.std.specs.Result.{result_unwrap_or};
ghost use Rattle.refusals.specs.Number.{refusal_of};
ghost use Rattle.refusals.specs.Call.{Answered, front};
ghost use Rattle.link.specs.Link.{link_can_arise, no_link, frame_at};
ghost use Rattle.sender.specs.Sender.{new_sender, open_sender_call, sender_can_arise, is_reservation, reserve_call, seal_call};
ghost use Rattle.sender.specs.Sealed.{number_in, size_in};

use frames::Header;
use link::Link;
use refusals::Refusal;

// How far above the next number a reservation may lie.
pub const AHEAD: u32 = 64;

// The sending end, with the number of its next frame and its reservation: it seals only numbers below that.
#[derive(Clone, Copy)]
pub struct Sender {
    pub link: Link,
    pub next: u32,
    pub reserved: u32,
}

// A sealed frame: its number and its length.
#[derive(Clone, Copy, Debug, PartialEq, Eq)]
pub struct Sealed {
    pub number: u32,
    pub size: usize,
}

// Opens a sender, whose first frame has number 0. It seals nothing until it is told a reservation.
pub fn open_sender(key: &[u8], iov: u32, sapi: u8, direction: u8) -> Result<Sender, Refusal>
    ensures { Answered (open_sender_call key.now iov sapi direction) (refusal_of result) [] (result_unwrap_or result (new_sender no_link)) }
{
    let link = link::open_link(key, iov, sapi, direction)?;
    Ok(Sender {
        link,
        next: 0,
        reserved: 0,
    })
}

// A sender that can arise.
#[tactic(auto, unfolding(numbering::specs::Numbering::end, crate::specs::Sender::sender_can_arise))]
pub fn can_arise(sender: Sender) -> bool
    ensures { result ≡ sender_can_arise sender }
{
    link::can_arise(sender.link)
        && sender.reserved <= numbering::END
        && sender.next <= sender.reserved
        && sender.reserved - sender.next <= AHEAD
}

// A reservation that a sender may be told: not lower than its present one, not too far above its next number, and not past the end.
#[tactic(auto, unfolding(numbering::specs::Numbering::end, crate::specs::Sender::sender_can_arise, crate::specs::Sender::is_reservation))]
fn is_reservation(sender: Sender, reserved: u32) -> bool
    requires { sender_can_arise sender ≡ true }
    ensures { result ≡ is_reservation sender reserved }
{
    (sender.reserved..=sender.next + AHEAD).contains(&reserved) && reserved <= numbering::END
}

// Tells a sender the reservation that was stored last, before another is stored.
#[tactic(auto, unfolding(refusals::specs::Refusal::first, crate::specs::Sender::reserve_order, crate::specs::Sender::with_reservation))]
pub fn reserve(sender: &mut Sender, reserved: u32) -> Result<(), Refusal>
    ensures { Answered (reserve_call sender.old reserved) (refusal_of result) [] sender.new }
{
    if !can_arise(*sender) {
        return Err(Refusal::State);
    }
    if !is_reservation(*sender, reserved) {
        return Err(Refusal::Range);
    }
    sender.reserved = reserved;
    Ok(())
}

// The frame of a number, at the front of an output that has room for it. Neither call is refused: the header is in range, and so is the payload's size.
fn write_frame(link: Link, number: u32, payload: &[u8], output: &mut [u8])
    requires link_value { link_can_arise link ≡ true }
    requires payload_nonzero { (0 < length payload.now) × ((length payload.now ≤ 1520) × (length payload.now + 6 ≤ length output.old)) }
    ensures { output.new ≡ front (frame_at link number payload.now) output.old }
{
    let end = payload.len() + frames::HEADER_SIZE;
    let header = Header {
        sapi: link.sapi,
        direction: link.direction,
        sent: number % 512,
    };
    frames::put_header(header, payload.len(), output).unwrap();
    link::cipher(link, number, payload, &mut output[frames::HEADER_SIZE..end]).unwrap();
}

// Seals a payload into the frame of the sender's next number, which has to be below the reservation.
#[tactic(auto, unfolding(refusals::specs::Refusal::first, numbering::specs::Numbering::end, link::specs::Link::is_payload, crate::specs::Sender::seal_order, crate::specs::Sender::after_frame))]
pub fn seal(sender: &mut Sender, payload: &[u8], output: &mut [u8]) -> Result<Sealed, Refusal>
    ensures { Answered (seal_call sender.old payload.now output.old) (refusal_of result) (number_in result ∷ size_in result ∷ []) (record { sender = sender.new; output = output.new }) }
{
    if !can_arise(*sender) {
        return Err(Refusal::State);
    }
    if payload.is_empty() || frames::MOST_PAYLOAD < payload.len() {
        return Err(Refusal::Size);
    }
    let number = sender.next;
    if number == numbering::END {
        return Err(Refusal::End);
    }
    if sender.reserved <= number {
        return Err(Refusal::Reserve);
    }
    let size = payload.len() + frames::HEADER_SIZE;
    if output.len() < size {
        return Err(Refusal::Room);
    }
    write_frame(sender.link, number, payload, output);
    sender.next = number + 1;
    Ok(Sealed { number, size })
}
