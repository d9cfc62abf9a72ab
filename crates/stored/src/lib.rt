// The stored forms of both ends, for a host that is to go on after its plug was pulled.
#![tactic(auto)]

ghost use Rattle.std.specs.Prelude.{◌≡◌, [], ◌+◌, ◌*◌, ◌^◌, ◌≤◌, ◌<◌, length};
ghost use Rattle.refusals.specs.Refusal.{first};
ghost use Rattle.std.specs.Result.{result_unwrap_or};
ghost use Rattle.refusals.specs.Number.{refusal_of};
ghost use Rattle.refusals.specs.Call.{Answered, front};
ghost use Rattle.numbering.specs.Numbering.{width};
ghost use Rattle.link.specs.Link.{no_link};
ghost use Rattle.sender.specs.Sender.{new_sender};
ghost use Rattle.receiver.specs.Receiver.{new_receiver};
ghost use Rattle.stored.specs.Form.{quad_at, form, link_in, form_order};
ghost use Rattle.stored.specs.Ends.{store_sender_call, restore_sender_call, store_receiver_call, restore_receiver_call};

use link::Link;
use numbering::Numbering;
use receiver::Receiver;
use refusals::Refusal;
use sender::Sender;

// How many octets the stored form of a sender has.
pub const SENDER_SIZE: usize = 29;

// How many octets the stored form of a receiver has.
pub const RECEIVER_SIZE: usize = 33;

// The version of both forms.
const VERSION: u8 = 1;

// Where the words of a form begin: after its length, its version and the link.
const WORDS: usize = 25;

// How many words follow the link in the form of a sender, and of a receiver.
const SENDER_WORDS: usize = 1;

const RECEIVER_WORDS: usize = 2;

// ---- writing

// Puts a form to the front of an output that has room for it. Its length field has two octets.
fn put_form(link: Link, words: &[u32], output: &mut [u8])
    requires { (23 + 4 * length words.now < 2 ^ 16) × (25 + 4 * length words.now ≤ length output.old) }
    ensures { output.new ≡ front (form 1 link words.now) output.old }
{
    let follows = (WORDS - 2 + 4 * words.len()) as u16;
    output[..2].copy_from_slice(&follows.to_be_bytes());
    output[2] = VERSION;
    output[3..19].copy_from_slice(&link.key);
    output[19..23].copy_from_slice(&link.iov.to_be_bytes());
    output[23] = link.sapi;
    output[24] = link.direction;
    for (k, word) in words.iter().enumerate() {
        let at = WORDS + 4 * k;
        output[at..at + 4].copy_from_slice(&word.to_be_bytes());
    }
}

// Puts the stored form of a sender with a new reservation to the front of the output. The host stores it, and then tells the sender the reservation.
pub fn store_sender(sender: Sender, reserved: u32, output: &mut [u8]) -> Result<(), Refusal>
    ensures { Answered (store_sender_call sender reserved output.old) (refusal_of result) [] output.new }
{
    let mut told = sender;
    sender::reserve(&mut told, reserved)?;
    if output.len() < SENDER_SIZE {
        return Err(Refusal::Room);
    }
    put_form(sender.link, &[reserved], output);
    Ok(())
}

// Puts the stored form of a receiver to the front of the output.
#[tactic(auto, unfolding(refusals::specs::Refusal::first, numbering::specs::Numbering::marks_of, crate::specs::Ends::receiver_form, crate::specs::Ends::store_receiver_order))]
pub fn store_receiver(receiver: Receiver, output: &mut [u8]) -> Result<(), Refusal>
    ensures { Answered (store_receiver_call width receiver output.old) (refusal_of result) [] output.new }
{
    if !receiver::can_arise(receiver) {
        return Err(Refusal::State);
    }
    if output.len() < RECEIVER_SIZE {
        return Err(Refusal::Room);
    }
    let numbering = receiver.numbering;
    put_form(receiver.link, &[numbering.next, numbering.marks], output);
    Ok(())
}

// ---- reading

// The number of 32 bits in the four octets from a place on.
#[tactic(auto, unfolding(frames::specs::Frame::pair_at, crate::specs::Form::quad_at))]
fn number_at(octets: &[u8], place: usize) -> u32
    requires { place + 4 ≤ length octets.now }
    ensures { result ≡ quad_at octets.now place }
{
    u32::from_be_bytes(octets[place..place + 4].try_into().unwrap())
}

// The link that a form holds.
#[tactic(auto, unfolding(crate::specs::Form::link_in))]
fn link_in(octets: &[u8]) -> Link
    requires { 25 ≤ length octets.now }
    ensures { result ≡ link_in octets.now }
{
    Link {
        key: octets[3..19].try_into().unwrap(),
        iov: number_at(octets, 19),
        sapi: octets[23],
        direction: octets[24],
    }
}

// Why octets are no form with so many words: their length, and what it is said to be; their version.
#[tactic(auto, unfolding(refusals::specs::Refusal::first, frames::specs::Frame::pair_at, crate::specs::Form::form_order, crate::specs::Form::is_form_long))]
fn form_refusal(octets: &[u8], words: usize) -> Result<(), Refusal>
    requires { 23 + 4 * words < 2 ^ 16 }
    ensures { refusal_of result ≡ first (form_order 1 words octets.now) }
{
    let size = WORDS + 4 * words;
    if octets.len() != size {
        return Err(Refusal::Length);
    }
    let follows = u16::from_be_bytes([octets[0], octets[1]]) as usize;
    if follows != size - 2 {
        return Err(Refusal::Length);
    }
    if octets[2] != VERSION {
        return Err(Refusal::Version);
    }
    Ok(())
}

// Makes a sender from its stored form. It goes on at its reservation.
#[tactic(auto, using(crate::proofs::ReadBack::form_long))]
pub fn restore_sender(octets: &[u8]) -> Result<Sender, Refusal>
    ensures { Answered (restore_sender_call octets.now) (refusal_of result) [] (result_unwrap_or result (new_sender no_link)) }
{
    form_refusal(octets, SENDER_WORDS)?;
    let link = link_in(octets);
    let reserved = number_at(octets, WORDS);
    let sender = Sender {
        link,
        next: reserved,
        reserved,
    };
    if !sender::can_arise(sender) {
        return Err(Refusal::State);
    }
    Ok(sender)
}

// Makes a receiver from its stored form.
#[tactic(auto, using(crate::proofs::ReadBack::form_long))]
pub fn restore_receiver(octets: &[u8]) -> Result<Receiver, Refusal>
    ensures { Answered (restore_receiver_call width octets.now) (refusal_of result) [] (result_unwrap_or result (new_receiver no_link)) }
{
    form_refusal(octets, RECEIVER_WORDS)?;
    let link = link_in(octets);
    let numbering = Numbering {
        next: number_at(octets, WORDS),
        marks: number_at(octets, WORDS + 4),
    };
    let receiver = Receiver { link, numbering };
    if !receiver::can_arise(receiver) {
        return Err(Refusal::State);
    }
    Ok(receiver)
}
