// Makes one call many times, to be timed: reads WHAT, M and COUNT, and makes COUNT calls under the key 00 01 .. 0F with the numbers 0, 1, 2, .. WHAT is
// 0 for GEA4 of M octets, 1 for A5/4 of GSM, 2 for a block of KASUMI, 3 for sealing and 4 for opening a frame with a payload of M octets, 5 for f8 and 6
// for f9 of a message of M bits, 7 for a full set of MILENAGE, eight calls; M says nothing of 1, 2 and 7. It writes the exclusive or of all octets that
// were handed out, so that none can be left out.
#![tactic(auto)]

mod calls;

ghost use Rattle.std.specs.Prelude.{◌≤◌, IfOk, length};

use std::io::Read;
use std::{array, io};

// The calls that can be timed.
enum What {
    Gea4,
    Gsm,
    Block,
    Seal,
    Open,
    F8,
    F9,
    Milenage,
}

impl From<u64> for What {
    // What a number stands for: one that stands for nothing else is GEA4.
    fn from(number: u64) -> What {
        match number {
            1 => What::Gsm,
            2 => What::Block,
            3 => What::Seal,
            4 => What::Open,
            5 => What::F8,
            6 => What::F9,
            7 => What::Milenage,
            _ => What::Gea4,
        }
    }
}

// Makes a call with each number below `count`, and answers the exclusive or of all sums. A refused call hands out nothing.
fn many<E: Drop, F: FnMut(u32) -> Result<u8, E>>(count: u32, mut call: F) -> u8
    requires { F.IsAlwaysCallable call }
{
    let mut sum = 0;
    for number in 0..count {
        sum ^= call(number).unwrap_or(0);
    }
    sum
}

// The longest message of f8 and f9: octet i is i, modulo 256.
fn message() -> [u8; 2500] {
    array::from_fn(|i| (i % 256) as u8)
}

// Room for the longest output, and the six octets more of a frame.
const ROOM: usize = 65542;

// Makes COUNT calls of a kind.
fn timed(what: What, m: u32, count: u32) -> u8
    requires { m ≤ 65536 }
{
    let mut room = [0; ROOM];
    let output = &mut room[..m as usize + 6];
    match what {
        What::Gea4 => many(count, |number| calls::gea4(number, m, output)),
        What::Gsm => many(count, calls::gsm),
        What::Block => many(count, calls::block),
        What::Milenage => many(count, calls::milenage),
        What::F8 => f8(m, count, output),
        What::F9 => f9(m, count),
        What::Seal => seal(m, count, output),
        What::Open => open(m, count, output),
    }
}

fn f8(bits: u32, count: u32, output: &mut [u8]) -> u8 {
    let message = message();
    match output.get_mut(..octets::size(bits)) {
        Some(output) => many(count, |number| calls::f8(number, &message, bits, output)),
        None => 0,
    }
}

fn f9(bits: u32, count: u32) -> u8 {
    let message = message();
    many(count, |number| calls::f9(number, &message, bits))
}

// Frames with a payload of `m` zeros.
fn seal(m: u32, count: u32, output: &mut [u8]) -> u8 {
    match [0; 1520].get(..m as usize) {
        Some(payload) => many(count, |number| calls::seal(number, payload, output)),
        None => 0,
    }
}

// Frames with a payload of `m` octets.
fn open(m: u32, count: u32, output: &mut [u8]) -> u8 {
    match [0; 1526].get_mut(..m as usize + 6) {
        Some(frame) => many(count, |_| calls::open(frame, output)),
        None => 0,
    }
}

// A decimal number up to `most`. What the program makes of any input stays: a text that is no such number counts as 0.
fn number(text: &[u8], most: u64) -> u64
    ensures { result ≤ most }
{
    match lines::decimal(text) {
        Ok(value) if value <= most => value,
        _ => 0,
    }
}

// What stands before the first such octet of a text, and what stands after it. Where there is none, each is the text: what the program makes of any input
// stays.
fn parts(text: &[u8], octet: u8) -> (&[u8], &[u8]) {
    match text.iter().position(|other| *other == octet) {
        Some(place) => (&text[..place], &text[place + 1..]),
        None => (text, text),
    }
}

// A line WHAT M COUNT.
fn answer(rt: HostRuntime, line: &[u8]) -> io::Result<()> {
    let (what, rest) = parts(line, b' ');
    let (m, rest) = parts(rest, b' ');
    let (count, _) = parts(rest, b'\n');
    let what = What::from(number(what, 7));
    let m = number(m, 65536) as u32;
    let count = number(count, 0xFFFF_FFFF) as u32;
    println!(rt; "{:02X}", timed(what, m, count))
}

// Reads until the line is full or the input ends, and answers how many octets were read. How many a read brings is the input's to say, so no `for` counts
// them.
fn read_full(rt: HostRuntime, line: &mut [u8]) -> io::Result<usize>
    ensures { IfOk result (λ count. count ≤ length line.new) }
{
    let mut count = 0;
    while count < line.len() {
        let size = rt.stdin().read(&mut line[count..])?;
        if size == 0 {
            break;
        }
        count += size;
    }
    Ok(count)
}

fn main(rt: HostRuntime) -> io::Result<()> {
    let mut line = [0; 64];
    let got = read_full(rt, &mut line)?;
    answer(rt, &line[..got])
}
