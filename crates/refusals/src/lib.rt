// The refusals of document 01. A call that can be refused answers a `Result`, whose error is one of these.
#![tactic(auto)]

ghost use Rattle.std.specs.Prelude.{◌≡◌, None};
ghost use Rattle.refusals.specs.Number.{number_of};

use std::error::Error;
use std::fmt;

// Why a call is refused, each with its number in the table of document 01.
#[derive(Clone, Copy, Debug, PartialEq, Eq, Hash)]
pub enum Refusal {
    // The key is neither 8 octets nor 16; of KASUMI, KGCORE, f8, f9, AES and MILENAGE, not 16. Of MILENAGE also OP, OPc or RAND is not 16 octets.
    Key = 1,

    // An input is above its range, a service number is not assigned, or a reservation is lower than the present one, more than 64 above the
    // next number or above 2^27.
    Range = 2,

    // A size is 0 or above its limit.
    Size = 3,

    // A lent output is shorter than the result.
    Room = 4,

    // A frame is under 7 octets, its L is outside 5 to 1,524, or it is not L + 2 octets; a stored form is not as long as it has to be, or its
    // length field does not say so; a message of f8 or f9 is shorter than its bits; a block of AES is not 16 octets; SQN is not 6 octets, or AMF not 2.
    Length = 5,

    // The version of a frame or of a stored form is not 1.
    Version = 6,

    // A zero bit of a frame's octets 3 to 5 is set.
    Spare = 7,

    // A frame's SAPI or direction is not the link's.
    Other = 8,

    // The candidate is below 0.
    Start = 9,

    // The sender's next number is 2^27, or the candidate is 2^27 or more.
    End = 10,

    // The candidate was accepted already.
    Repeat = 11,

    // A state that cannot arise.
    State = 12,

    // The sender's next number is not below its reservation.
    Reserve = 13,
}

impl Refusal {
    // The number in the table.
    pub fn number(self) -> u8
        ensures { result ≡ number_of self }
    {
        self as u8
    }
}

impl fmt::Display for Refusal {
    fn fmt<W: fmt::Write>(&self, f: &mut fmt::Formatter<W>) -> fmt::Result {
        f.write_str(match self {
            Refusal::Key => "1 KEY",
            Refusal::Range => "2 RANGE",
            Refusal::Size => "3 SIZE",
            Refusal::Room => "4 ROOM",
            Refusal::Length => "5 LENGTH",
            Refusal::Version => "6 VERSION",
            Refusal::Spare => "7 SPARE",
            Refusal::Other => "8 OTHER",
            Refusal::Start => "9 START",
            Refusal::End => "10 END",
            Refusal::Repeat => "11 REPEAT",
            Refusal::State => "12 STATE",
            Refusal::Reserve => "13 RESERVE",
        })
    }
}

impl Error for Refusal {}

// A refusal of a numbered frame, with the candidate where it is given: with 11, and with 4 where a frame is opened.
#[derive(Clone, Copy, Debug, PartialEq, Eq, Hash)]
pub struct Refused {
    pub refusal: Refusal,
    pub candidate: Option<u32>,
}

impl From<Refusal> for Refused {
    ghost from_gives = { λ refusal refused. refused ≡ record { refusal = refusal; candidate = None } };

    fn from(refusal: Refusal) -> Refused {
        Refused {
            refusal,
            candidate: None,
        }
    }
}

impl fmt::Display for Refused {
    fn fmt<W: fmt::Write>(&self, f: &mut fmt::Formatter<W>) -> fmt::Result {
        match self.candidate {
            Some(number) => write!(f, "{}, number {number}", self.refusal),
            None => write!(f, "{}", self.refusal),
        }
    }
}

impl Error for Refused {}
