// Bit strings in octets: the first bit is the highest of the first octet, and spare bits of the last octet are zero.
#![tactic(auto)]

ghost use Rattle.std.specs.Prelude.{◌≡◌, [], ℕ, ◌+◌, ◌^◌, ◌<◌};
ghost use Rattle.octets.specs.Bits.{bit_of, number, first_bits, octet_or_zero, size as Bits·size};
ghost use Rattle.refusals.specs.Number.{refusal_of};
ghost use Rattle.refusals.specs.Call.{Answered};
ghost use Rattle.octets.specs.Cut.{cut_call};
ghost use Rattle.octets.specs.Xor.{xor_call};

use refusals::Refusal;

// How many octets hold `count` bits.
pub fn size(count: u32) -> usize
    ensures { result ≡ Bits·size count }
{
    (count as usize + 7) / 8
}

// The octet with its first `count` bits, and zero for each bit after them. A count of 8 or more keeps all.
pub fn first_bits(whole: u8, count: usize) -> u8
    ensures { result ≡ first_bits whole count }
{
    if 8 <= count {
        return whole;
    }
    let spare = 8 - count;
    ((whole as u32) >> spare << spare) as u8
}

// The octet at a place of the source, or 0 past its end.
pub fn octet_or_zero(source: &[u8], place: usize) -> u8
    ensures { result ≡ octet_or_zero source.now place }
{
    source.get(place).copied().unwrap_or(0)
}

// The eight bits of the source from bit `at` on: they stand in two octets that follow one another.
fn eight_bits(source: &[u8], at: usize) -> u8
    requires { at < 2 ^ 40 }
    ensures { result ≡ number (λ (j : ℕ). bit_of source.now (at + j)) 8 }
{
    let high = octet_or_zero(source, at / 8);
    let low = octet_or_zero(source, at / 8 + 1);
    ((u16::from_be_bytes([high, low]) >> (8 - at % 8)) % 256) as u8
}

// Cuts `count` bits out of the source, from bit `start` on, into the output.
pub fn cut(source: &[u8], start: u32, count: u32, output: &mut [u8]) -> Result<(), Refusal>
    ensures { Answered (cut_call source.now start count output.old) (refusal_of result) [] output.new }
{
    let size = size(count);
    if output.len() < size {
        return Err(Refusal::Room);
    }
    for k in 0..size {
        output[k] = first_bits(
            eight_bits(source, start as usize + 8 * k),
            count as usize - 8 * k,
        );
    }
    Ok(())
}

// Puts the source xor the stream to the front of the output. Where the stream has ended, the source stays as it is.
pub fn xor(source: &[u8], stream: &[u8], output: &mut [u8]) -> Result<(), Refusal>
    ensures { Answered (xor_call source.now stream.now output.old) (refusal_of result) [] output.new }
{
    if output.len() < source.len() {
        return Err(Refusal::Room);
    }
    for (i, octet) in source.iter().enumerate() {
        output[i] = octet ^ octet_or_zero(stream, i);
    }
    Ok(())
}
