// What a call hands out. Where it was refused, that is 0, no, no link, a new end of none, or a key of zeros.
ghost use Rattle.std.specs.Prelude.{◌≡◌, false, replicate};
ghost use Rattle.std.specs.Result.{result_unwrap_or};
ghost use Rattle.refusals.specs.Number.{refusal_of, refused_of, number_in};
ghost use Rattle.link.specs.Link.{no_link};
ghost use Rattle.sender.specs.Sender.{new_sender};
ghost use Rattle.sender.specs.Sealed.{number_in as Sealed·number_in, size_in as Sealed·size_in};
ghost use Rattle.receiver.specs.Receiver.{new_receiver};
ghost use Rattle.receiver.specs.Opened.{number_in as Opened·number_in, size_in as Opened·size_in};

use link::Link;
use numbering::Numbering;
use receiver::{Opened, Receiver};
use refusals::{Refusal, Refused};
use sender::{Sealed, Sender};

// A thing that calls hand out, and what stands for it where the call was refused.
pub(crate) trait Handed: Copy {
    ghost NONE: { Self };

    const NONE: Self;
}

impl Handed for bool {
    ghost NONE = { false };

    const NONE: bool = false;
}

impl Handed for u32 {
    ghost NONE = { 0 };

    const NONE: u32 = 0;
}

impl Handed for u64 {
    ghost NONE = { 0 };

    const NONE: u64 = 0;
}

impl Handed for [u8; 16] {
    ghost NONE = { replicate 16 0 };

    const NONE: [u8; 16] = [0; 16];
}

impl Handed for [u16; 64] {
    ghost NONE = { replicate 64 0 };

    const NONE: [u16; 64] = [0; 64];
}

impl Handed for [u32; 44] {
    ghost NONE = { replicate 44 0 };

    const NONE: [u32; 44] = [0; 44];
}

// No link: all zeros with direction 2.
const NO_LINK: Link = Link {
    key: [0; 16],
    iov: 0,
    sapi: 0,
    direction: 2,
};

impl Handed for Link {
    ghost NONE = { no_link };

    const NONE: Link = NO_LINK;
}

impl Handed for Sender {
    ghost NONE = { new_sender no_link };

    const NONE: Sender = Sender {
        link: NO_LINK,
        next: 0,
        reserved: 0,
    };
}

impl Handed for Receiver {
    ghost NONE = { new_receiver no_link };

    const NONE: Receiver = Receiver {
        link: NO_LINK,
        numbering: Numbering { next: 0, marks: 0 },
    };
}

// What an answer hands out.
pub(crate) fn handed_out<T: Handed>(answer: Result<T, Refusal>) -> T
    ensures { result ≡ result_unwrap_or answer T.NONE }
{
    answer.unwrap_or(T::NONE)
}

// The number of the refusal of an answer, 0 where nothing was refused.
pub(crate) fn number_of<T>(answer: &Result<T, Refusal>) -> u8
    ensures { result ≡ refusal_of answer.now }
{
    match answer {
        Ok(_) => 0,
        Err(refusal) => refusal.number(),
    }
}

// The same of an answer that may give the candidate with its refusal.
pub(crate) fn refused_number<T>(answer: &Result<T, Refused>) -> u8
    ensures { result ≡ refused_of answer.now }
{
    match answer {
        Ok(_) => 0,
        Err(refused) => refused.refusal.number(),
    }
}

// The number of a step, or the candidate where it is given.
pub(crate) fn numbered(answer: Result<u32, Refused>) -> u32
    ensures { result ≡ number_in answer }
{
    match answer {
        Ok(number) => number,
        Err(refused) => refused.candidate.unwrap_or(0),
    }
}

// The number of a sealed frame, and its length.
pub(crate) fn sealed_numbers(answer: Result<Sealed, Refusal>) -> (u32, usize)
    ensures number { result.0 ≡ Sealed·number_in answer }
    ensures size { result.1 ≡ Sealed·size_in answer }
{
    match answer {
        Ok(sealed) => (sealed.number, sealed.size),
        Err(_) => (0, 0),
    }
}

// The number of an opened frame, or the candidate where it is given, and the length of the payload.
pub(crate) fn opened_numbers(answer: Result<Opened, Refused>) -> (u32, usize)
    ensures number { result.0 ≡ Opened·number_in answer }
    ensures size { result.1 ≡ Opened·size_in answer }
{
    match answer {
        Ok(opened) => (opened.number, opened.size),
        Err(refused) => (refused.candidate.unwrap_or(0), 0),
    }
}
