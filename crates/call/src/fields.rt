// The fields of a line, which stand between single spaces: the first is the name of the call, and each other is read in the form that the call asks for.
ghost use Rattle.std.specs.Prelude.{◌<◌, ◌≤◌};

use std::io;

// A line that is no call.
#[derive(Clone, Copy, Debug, PartialEq, Eq)]
pub(crate) struct NoCall;

// Why a line is not answered.
#[derive(Debug, Drop)]
pub(crate) enum Failure {
    NoCall,
    Host(io::Error),
}

impl From<NoCall> for Failure {
    fn from(_no_call: NoCall) -> Failure {
        Failure::NoCall
    }
}

impl From<io::Error> for Failure {
    fn from(error: io::Error) -> Failure {
        Failure::Host(error)
    }
}

// The most octets that can be lent.
pub(crate) const MOST_ROOM: usize = 65600;

// The size of an output that can be lent.
#[derive(Clone, Copy)]
pub(crate) struct Room {
    pub size: usize,
    ghost can_be_lent: { size ≤ 65600 },
}

impl TryFrom<u64> for Room {
    type Error = NoCall;

    fn try_from(number: u64) -> Result<Room, NoCall> {
        let size = number as usize;
        if MOST_ROOM < size {
            return Err(NoCall);
        }
        Ok(Room { size })
    }
}

// The most octets of a field.
const MOST_OCTETS: usize = 2560;

// The fields that were not read yet, none behind the last one, and room for the octets that they say.
#[derive(Drop)]
pub(crate) struct Fields<'a> {
    rest: Option<&'a [u8]>,
    room: &'a mut [u8],
}

impl<'a> Fields<'a> {
    pub(crate) fn of(line: &'a [u8], room: &'a mut [u8]) -> Fields<'a> {
        Fields {
            rest: Some(line),
            room,
        }
    }

    // The next field as it stands.
    pub(crate) fn text(&mut self) -> Result<&'a [u8], NoCall> {
        let rest = self.rest.ok_or(NoCall)?;
        match rest.iter().position(|octet| *octet == b' ') {
            Some(place) => {
                self.rest = Some(&rest[place + 1..]);
                Ok(&rest[..place])
            }
            None => {
                self.rest = None;
                Ok(rest)
            }
        }
    }

    // A number, decimal or hex after 0x, that its type can hold.
    pub(crate) fn number<T: TryFrom<u64>>(&mut self) -> Result<T, NoCall>
    where
        T::Error: Drop,
    {
        let text = self.text()?;
        let read = match text.strip_prefix(b"0x") {
            Some(digits) => lines::hexadecimal(digits),
            None => lines::decimal(text),
        };
        let number = read.map_err(|_| NoCall)?;
        T::try_from(number).map_err(|_| NoCall)
    }

    // Octets, pairs of hex digits, or - for none.
    pub(crate) fn octets(&mut self) -> Result<&'a [u8], NoCall> {
        let text = self.text()?;
        if text == b"-".as_slice() {
            return Ok(&[]);
        }
        let octets = self.room.split_off_mut(..text.len() / 2).ok_or(NoCall)?;
        match lines::octets_of_hex(text, octets) {
            Ok(1..=MOST_OCTETS) => Ok(octets),
            _ => Err(NoCall),
        }
    }

    // So many octets.
    pub(crate) fn array<const N: usize>(&mut self) -> Result<[u8; N], NoCall> {
        <[u8; N]>::try_from(self.octets()?).map_err(|_| NoCall)
    }

    // So many words of so many octets.
    pub(crate) fn words<const SIZE: usize, const N: usize>(
        &mut self,
    ) -> Result<[[u8; SIZE]; N], NoCall>
        requires { 0 < SIZE }
    {
        match self.octets()?.as_chunks() {
            (words, []) => <[[u8; SIZE]; N]>::try_from(words).map_err(|_| NoCall),
            _ => Err(NoCall),
        }
    }

    // No field is left.
    pub(crate) fn end(&self) -> Result<(), NoCall> {
        match self.rest {
            None => Ok(()),
            Some(_) => Err(NoCall),
        }
    }
}
