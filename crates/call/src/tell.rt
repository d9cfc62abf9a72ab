// What the program writes.
ghost use Rattle.std.specs.Prelude.{◌≤◌, length};

use link::Link;
use numbering::Numbering;
use receiver::Receiver;
use sender::Sender;
use std::{fmt, io};

// The answer to a line that is no call.
pub(crate) fn bad(rt: HostRuntime) -> io::Result<()> {
    println!(rt; "?")
}

// A value as it stands in an answer.
#[derive(Clone, Copy, Drop)]
pub(crate) struct Told<T>(pub T);

// Octets are hex, or - where there are none. They are put part by part: one by one as {:02X} they take about twice as long. What is displayed is copied
// octet by octet, so many octets go by `put_octets`.
impl fmt::Display for Told<&[u8]> {
    fn fmt<W: fmt::Write>(&self, f: &mut fmt::Formatter<W>) -> fmt::Result {
        if self.0.is_empty() {
            return f.write_str("-");
        }
        for octets in self.0.chunks(64) {
            let mut digits = [0; 128];
            let count = lines::hex_of_octets(octets, &mut digits).map_err(|_| fmt::Error)?;
            let digits = digits.get(..count).ok_or(fmt::Error)?;
            f.write_str(str::from_utf8(digits).map_err(|_| fmt::Error)?)?;
        }
        Ok(())
    }
}

// A state is its fields.
impl fmt::Display for Told<Link> {
    fn fmt<W: fmt::Write>(&self, f: &mut fmt::Formatter<W>) -> fmt::Result {
        let Link {
            key,
            iov,
            sapi,
            direction,
        } = self.0;
        write!(f, "{} {iov} {sapi} {direction}", Told(key.as_slice()))
    }
}

impl fmt::Display for Told<Numbering> {
    fn fmt<W: fmt::Write>(&self, f: &mut fmt::Formatter<W>) -> fmt::Result {
        let Numbering { next, marks } = self.0;
        write!(f, "{next} {marks}")
    }
}

impl fmt::Display for Told<Sender> {
    fn fmt<W: fmt::Write>(&self, f: &mut fmt::Formatter<W>) -> fmt::Result {
        let Sender {
            link,
            next,
            reserved,
        } = self.0;
        write!(f, "{} {next} {reserved}", Told(link))
    }
}

impl fmt::Display for Told<Receiver> {
    fn fmt<W: fmt::Write>(&self, f: &mut fmt::Formatter<W>) -> fmt::Result {
        let Receiver { link, numbering } = self.0;
        write!(f, "{} {}", Told(link), Told(numbering))
    }
}

// The most octets that are displayed with the rest of their line.
const FEW: usize = 64;

// Writes what is told, a space, octets and what ends them. Many octets are written by themselves: displayed, those of an output of the largest size take
// seven times as long.
pub(crate) fn put_octets<T: fmt::Display + Drop>(
    rt: HostRuntime,
    told: T,
    octets: &[u8],
    end: &str,
) -> io::Result<()> {
    if octets.len() <= FEW {
        return print!(rt; "{told} {}{end}", Told(octets));
    }
    print!(rt; "{told} ")?;
    if octets.len() <= 2048 {
        put_hex(rt, octets, &mut [0; 4096])?;
    } else {
        put_hex(rt, octets, &mut [0; 32768])?;
    }
    print!(rt; "{end}")
}

// Writes octets as hex, as many at a time as there is room for.
fn put_hex(rt: HostRuntime, octets: &[u8], digits: &mut [u8]) -> io::Result<()>
    requires { 2 ≤ length digits.old }
{
    for octets in octets.chunks(digits.len() / 2) {
        let count = lines::hex_of_octets(octets, digits).map_err(|_| too_long())?;
        rt.write_all(digits.get(..count).ok_or(too_long())?)?;
    }
    Ok(())
}

// More digits than there is room for, which no piece has.
fn too_long() -> io::Error {
    io::Error::other("octets have too many digits")
}
