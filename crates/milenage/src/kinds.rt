// The rotations r1 to r5, in bits, and the constants c1 to c5 of the five outputs, and the octets of an output that each result is, named once
// (TS 35.206, 4.1).
ghost use Rattle.std.specs.Prelude.{◌≡◌, ◌%◌, ◌<◌};

use std::ops::Range;

// By how many bits the string before an output's encryption turns to the left, and the number of 128 bits that it is then xored with, of which the last
// octet alone is not zero.
#[derive(Clone, Copy)]
pub(crate) struct Output {
    pub rotation: usize,
    pub constant: u8,
    // A string turns by whole octets.
    ghost in_octets: { (rotation < 128) × (rotation % 8 ≡ 0) },
}

pub(crate) const OUT1: Output = Output {
    rotation: 64,
    constant: 0,
};

pub(crate) const OUT2: Output = Output {
    rotation: 0,
    constant: 1,
};

pub(crate) const OUT3: Output = Output {
    rotation: 32,
    constant: 2,
};

pub(crate) const OUT4: Output = Output {
    rotation: 64,
    constant: 4,
};

pub(crate) const OUT5: Output = Output {
    rotation: 96,
    constant: 8,
};

// MAC-A and MAC-S are the halves of OUT1.
pub(crate) const MAC_A: Range<usize> = 0..8;

pub(crate) const MAC_S: Range<usize> = 8..16;

// RES is the second half of OUT2.
pub(crate) const RES: Range<usize> = 8..16;

// AK is the first 48 bits of an output.
pub(crate) const AK: Range<usize> = 0..6;

// CK and IK are whole outputs.
pub(crate) const WHOLE: Range<usize> = 0..16;
