// The bench frame: six octets of header, then the ciphered payload of 1 to 1,520 octets.
#![tactic(auto, unfolding(refusals::specs::Refusal::first, refusals::specs::Call::front, crate::specs::Frame::pair, crate::specs::Frame::pair_at, crate::specs::Frame::header_octets, crate::specs::Frame::header_of, crate::specs::Frame::payload_of, crate::specs::Frame::is_whole, crate::specs::Frame::has_zero_bits, crate::specs::Frame::look_order, crate::specs::Frame::looked, crate::specs::Frame::is_header, crate::specs::Frame::header_order))]

ghost use Rattle.std.specs.Prelude.{◌≡◌, true, [], ◌++◌, ◌≤◌, length, drop};
ghost use Rattle.refusals.specs.Number.{refusal_of};
ghost use Rattle.refusals.specs.Call.{Answered};
ghost use Rattle.frames.specs.Frame.{pair_at, header_of, header_octets, looked, look_refusal_call, is_whole, has_zero_bits, is_header, put_header_call};

use octets::octet_or_zero;
use refusals::Refusal;

// The version that octet 2 names.
const VERSION: u8 = 1;

// How many octets stand before the payload.
pub const HEADER_SIZE: usize = 6;

// The longest payload.
pub const MOST_PAYLOAD: usize = 1520;

// What a header says beside the length: the service number, the direction and N, the low nine bits of the number. The fields are wider than their
// bits, since a caller may hand in any numbers, and is refused with 2.
#[derive(Clone, Copy, Debug, PartialEq, Eq)]
pub struct Header {
    pub sapi: u8,
    pub direction: u8,
    pub sent: u32,
}

// The number that octet `k` and the one after it write; a missing octet counts as 0.
fn pair(frame: &[u8], k: usize) -> u16
    requires { k ≤ 4 }
    ensures { result ≡ pair_at frame.now k }
{
    u16::from_be_bytes([octet_or_zero(frame, k), octet_or_zero(frame, k + 1)])
}

// The octets are as many as L says, and L is within its limits.
fn is_whole(frame: &[u8]) -> bool
    ensures { result ≡ is_whole frame.now }
{
    let count = usize::from(pair(frame, 0));
    7 <= frame.len() && (5..=1524).contains(&count) && frame.len() == count + 2
}

// The bits of octets 3 to 5 that say nothing are zero.
fn has_zero_bits(frame: &[u8]) -> bool
    ensures { result ≡ has_zero_bits frame.now }
{
    octet_or_zero(frame, 3) / 2 % 8 == 0 && octet_or_zero(frame, 4) / 2 == 0
}

// Why a look at a frame is refused, if it is.
pub fn look_refusal(frame: &[u8]) -> Result<(), Refusal>
    ensures { Answered (look_refusal_call frame.now) (refusal_of result) [] tt }
{
    if !is_whole(frame) {
        return Err(Refusal::Length);
    }
    if octet_or_zero(frame, 2) != VERSION {
        return Err(Refusal::Version);
    }
    if !has_zero_bits(frame) {
        return Err(Refusal::Spare);
    }
    Ok(())
}

// The ciphered payload as a part of the frame, or an empty part where a look is refused.
pub fn look(frame: &[u8]) -> &[u8]
    ensures { result.now ≡ looked frame.now }
{
    match look_refusal(frame) {
        Ok(()) => &frame[HEADER_SIZE..],
        Err(_) => &frame[..0],
    }
}

// What the header says. Octets that are missing read as 0.
pub fn header_of(frame: &[u8]) -> Header
    ensures { result ≡ header_of frame.now }
{
    let service = octet_or_zero(frame, 3);
    Header {
        sapi: service / 16,
        direction: service % 2,
        sent: u32::from(pair(frame, 4)),
    }
}

impl Header {
    // A service number, a direction and an N that the octets have room for.
    fn fits(self) -> bool
        ensures { result ≡ is_header self }
    {
        self.sapi <= 15 && self.direction <= 1 && self.sent <= 511
    }

    // The six octets before a payload of `size` octets, at the front of an output that has room for them. They are stored one by one: copied from an
    // array they take longer.
    fn write(self, size: usize, output: &mut [u8])
        requires { (is_header self ≡ true) × ((size ≤ 1520) × (6 ≤ length output.old)) }
        ensures { output.new ≡ header_octets self size ++ drop 6 output.old }
    {
        [.., output[0], output[1]] = (size + 4).to_be_bytes();
        output[2] = VERSION;
        output[3] = self.sapi * 16 + self.direction;
        [.., output[4], output[5]] = self.sent.to_be_bytes();
    }
}

// Puts the header of a payload of `size` octets to the front of the output.
pub fn put_header(header: Header, size: usize, output: &mut [u8]) -> Result<(), Refusal>
    ensures { Answered (put_header_call header size output.old) (refusal_of result) [] output.new }
{
    if !header.fits() {
        return Err(Refusal::Range);
    }
    if !(1..=MOST_PAYLOAD).contains(&size) {
        return Err(Refusal::Size);
    }
    if output.len() < HEADER_SIZE {
        return Err(Refusal::Room);
    }
    header.write(size, output);
    Ok(())
}
