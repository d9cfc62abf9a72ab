// The receiving end of a link. A call that is refused leaves it as it is.
#![tactic(auto)]

ghost use Rattle.std.specs.Prelude.{◌≡◌, [], ◌∷◌};
ghost use Rattle.std.specs.Result.{result_unwrap_or};
ghost use Rattle.refusals.specs.Number.{refusal_of, refused_of, CandidateWith};
ghost use Rattle.refusals.specs.Call.{Answered};
ghost use Rattle.numbering.specs.Numbering.{width};
ghost use Rattle.link.specs.Link.{no_link};
ghost use Rattle.receiver.specs.Receiver.{new_receiver, open_receiver_call, receiver_can_arise, is_of_link, open_call};
ghost use Rattle.receiver.specs.Opened.{number_in, size_in};

use link::Link;
use numbering::Numbering;
use refusals::{Refusal, Refused};

// The receiving end, with what it has accepted.
#[derive(Clone, Copy)]
pub struct Receiver {
    pub link: Link,
    pub numbering: Numbering,
}

// An opened frame: its number, and the payload's length.
#[derive(Clone, Copy, Debug, PartialEq, Eq)]
pub struct Opened {
    pub number: u32,
    pub size: usize,
}

// Opens a receiver that has accepted nothing.
pub fn open_receiver(key: &[u8], iov: u32, sapi: u8, direction: u8) -> Result<Receiver, Refusal>
    ensures { Answered (open_receiver_call key.now iov sapi direction) (refusal_of result) [] (result_unwrap_or result (new_receiver no_link)) }
{
    let link = link::open_link(key, iov, sapi, direction)?;
    let numbering = numbering::start();
    Ok(Receiver { link, numbering })
}

// A receiver that can arise.
#[tactic(auto, unfolding(crate::specs::Receiver::receiver_can_arise))]
pub fn can_arise(receiver: Receiver) -> bool
    ensures { result ≡ receiver_can_arise width receiver }
{
    link::can_arise(receiver.link) && numbering::can_arise(receiver.numbering)
}

// A frame of this link, by its header.
#[tactic(auto, unfolding(crate::specs::Receiver::is_of_link))]
fn is_of_link(link: Link, frame: &[u8]) -> bool
    ensures { result ≡ is_of_link link frame.now }
{
    let header = frames::header_of(frame);
    header.sapi == link.sapi && header.direction == link.direction
}

// Opens a frame, whose payload goes to the front of the output. Its number is worked out on a copy of the numbering, and then room is asked, so that
// a frame refused for room is not marked.
pub fn open(receiver: &mut Receiver, frame: &[u8], output: &mut [u8]) -> Result<Opened, Refused>
    ensures answer { Answered (open_call width receiver.old frame.now output.old) (refused_of result) (number_in result ∷ size_in result ∷ []) (record { receiver = receiver.new; output = output.new }) }
    ensures candidate { CandidateWith (open_call width receiver.old frame.now output.old).candidate_with result }
{
    if !can_arise(*receiver) {
        return Err(Refusal::State.into());
    }
    frames::look_refusal(frame)?;
    if !is_of_link(receiver.link, frame) {
        return Err(Refusal::Other.into());
    }
    let header = frames::header_of(frame);
    let mut numbering = receiver.numbering;
    // A match, and not `?`: an edit that must fail changes the refusal that is handed on.
    let number = match numbering::number(&mut numbering, header.sent) {
        Ok(number) => number,
        Err(refused) => return Err(refused),
    };
    let payload = frames::look(frame);
    let size = payload.len();
    if output.len() < size {
        return Err(Refused {
            refusal: Refusal::Room,
            candidate: Some(number),
        });
    }
    // The link can arise, and a frame's payload has 1 to 1,520 octets, so this is not refused.
    link::cipher(receiver.link, number, payload, output).unwrap();
    receiver.numbering = numbering;
    Ok(Opened { number, size })
}
