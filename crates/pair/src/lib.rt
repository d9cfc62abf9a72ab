// The third generation pair of TS 35.201: f8, which enciphers a message, and f9, which gives a code by which a changed message is told. Both take a key
// of 16 octets and a message of 1 to 20,000 bits.
#![tactic(auto)]

mod chain;
mod given;
mod string;

ghost use Rattle.std.specs.Prelude.{◌≡◌, [], ◌∷◌, ◌≤◌, length, false};
ghost use Rattle.std.specs.Result.{MatchResult, result_unwrap_or};
ghost use Rattle.refusals.specs.declared.Refusal.TheVariants.{Key};
ghost use Rattle.refusals.specs.Number.{refusal_of};
ghost use Rattle.refusals.specs.Call.{Answered, front};
ghost use Rattle.octets.specs.Bits.{size as Bits·size};
ghost use Rattle.octets.specs.Octets.{is_whole_key};
ghost use Rattle.pair.specs.F8.{f8_core, f8_output, f8_call};
ghost use Rattle.pair.specs.F9.{f9_call, check_call};

use given::{MOST_OCTETS, Message};
use kgcore::Inputs;
use refusals::Refusal;
use string::Padded;

// What a caller of f8 sets: COUNT (32 bits), BEARER (5) and DIRECTION (1).
#[derive(Clone, Copy)]
pub struct F8Inputs {
    pub count: u32,
    pub bearer: u8,
    pub direction: u8,
}

// What a caller of f9 sets: COUNT (32 bits), FRESH (32) and DIRECTION (1).
#[derive(Clone, Copy)]
pub struct F9Inputs {
    pub count: u32,
    pub fresh: u32,
    pub direction: u8,
}

// What f8 fixes of KGCORE's inputs, named once (document 004, table B.1). CB is the BEARER.
impl F8Inputs {
    const CA: u8 = 0;

    const CE: u16 = 0;
}

impl From<F8Inputs> for Inputs {
    ghost from_gives = { λ inputs core. core ≡ f8_core inputs };

    #[tactic(auto, unfolding(crate::specs::F8::f8_core))]
    fn from(inputs: F8Inputs) -> Inputs {
        Inputs {
            ca: F8Inputs::CA,
            cb: inputs.bearer,
            cc: inputs.count,
            cd: inputs.direction,
            ce: F8Inputs::CE,
        }
    }
}

// A key of the pair has 16 octets; 8 will not do here.
fn whole_key(key: &[u8]) -> Result<&[u8; 16], Refusal>
    ensures { MatchResult result (λ whole. (length key.now ≡ 16) × (whole.now ≡ key.now)) (λ refusal. (is_whole_key key.now ≡ false) × (refusal ≡ Key)) }
{
    <&[u8; 16]>::try_from(key).map_err(|_| Refusal::Key)
}

// Puts the message xor the keystream to the front of an output that has room for it, and clears the spare bits of the last octet.
#[tactic(auto, unfolding(octets::specs::Bits::size))]
fn put_ciphered(inputs: F8Inputs, key: &[u8; 16], message: Message, output: &mut [u8])
    requires in_range { (inputs.bearer ≤ 31) × (inputs.direction ≤ 1) }
    requires room { Bits·size message.bits ≤ length output.old }
    ensures { output.new ≡ front (f8_output inputs key.now message.entry.octets.now message.entry.bits) output.old }
{
    let size = message.size();
    let mut stream = [0u8; MOST_OCTETS];
    kgcore::kgcore(inputs.into(), key, message.bits, &mut stream).unwrap();
    octets::xor(&message.octets[..size], &stream, output).unwrap();
    let last = size - 1;
    output[last] = octets::first_bits(output[last], message.bits as usize - 8 * last);
}

// Enciphers the first `bits` bits of a message, or deciphers them.
#[tactic(auto, unfolding(refusals::specs::Refusal::first, crate::specs::F8::f8_order, crate::specs::Message::message_order))]
pub fn f8(
    inputs: F8Inputs,
    key: &[u8],
    message: &[u8],
    bits: u32,
    output: &mut [u8],
) -> Result<(), Refusal>
    ensures { Answered (f8_call inputs key.now message.now bits output.old) (refusal_of result) [] output.new }
{
    let key = whole_key(key)?;
    if 31 < inputs.bearer || 1 < inputs.direction {
        return Err(Refusal::Range);
    }
    let message = Message::of(message, bits)?;
    if output.len() < message.size() {
        return Err(Refusal::Room);
    }
    put_ciphered(inputs, key, message, output);
    Ok(())
}

// The code of the first `bits` bits of a message.
#[tactic(auto, unfolding(refusals::specs::Refusal::first, crate::specs::F9::f9_order, crate::specs::Message::message_order))]
pub fn f9(inputs: F9Inputs, key: &[u8], message: &[u8], bits: u32) -> Result<u32, Refusal>
    ensures { Answered (f9_call inputs key.now message.now bits) (refusal_of result) (result_unwrap_or result 0 ∷ []) tt }
{
    let key = whole_key(key)?;
    if 1 < inputs.direction {
        return Err(Refusal::Range);
    }
    let string = Padded {
        inputs,
        message: Message::of(message, bits)?,
    };
    Ok(chain::code(key, string))
}

// Whether a code is that of the first `bits` bits of a message. Where f9 is refused, so is the check.
pub fn check_code(
    inputs: F9Inputs,
    key: &[u8],
    message: &[u8],
    bits: u32,
    code: u32,
) -> Result<bool, Refusal>
    ensures { Answered (check_call inputs key.now message.now bits code) (refusal_of result) [] (result_unwrap_or result false) }
{
    Ok(f9(inputs, key, message, bits)? == code)
}
