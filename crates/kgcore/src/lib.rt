// The core keystream generator KGCORE of document 004: KASUMI in a form of output feedback.
#![tactic(auto)]

ghost use Rattle.std.specs.Prelude.{◌≡◌, [], ◌++◌, ◌≤◌, ◌<◌, min, length, drop};
ghost use Rattle.octets.specs.Bits.{bit_at, octet, listed, size as Bits·size, stored};
ghost use Rattle.refusals.specs.Number.{refusal_of};
ghost use Rattle.refusals.specs.Call.{Answered};
ghost use Rattle.kgcore.specs.Kgcore.{kgcore_call, key_bit};
ghost use Rattle.kgcore.specs.Kgcore.{register as Kgcore·register, modified as Kgcore·modified, blocks as Kgcore·blocks};

use refusals::Refusal;

// The most bits that one call may ask for: 2^19 (document 01, "On the bench, and off it").
const MOST_BITS: u32 = 524_288;

// What a caller sets: CA (8 bits), CB (5), CC (32), CD (1) and CE (16).
#[derive(Clone, Copy)]
pub struct Inputs {
    pub ca: u8,
    pub cb: u8,
    pub cc: u32,
    pub cd: u8,
    pub ce: u16,
}

// The register A at first, each input at its place: CC, CB, CD, two zero bits, CA, CE (4.4).
#[tactic(auto, unfolding(crate::specs::Kgcore::register))]
fn register(inputs: Inputs) -> u64
    requires { (inputs.cb ≤ 31) × (inputs.cd ≤ 1) }
    ensures { result ≡ Kgcore·register inputs }
{
    ((inputs.cc as u64) << 32)
        + ((inputs.cb as u64) << 27)
        + ((inputs.cd as u64) << 26)
        + ((inputs.ca as u64) << 16)
        + inputs.ce as u64
}

// The key under which the register is ciphered: each octet xor the key modifier KM (4.4). f9 has a modifier of its own, over its own definition; one
// function for both would be a public call more.
#[tactic(auto, unfolding(crate::specs::Kgcore::modified))]
fn modified(key: &[u8; 16]) -> [u8; 16]
    ensures { result ≡ Kgcore·modified key.now }
{
    let mut changed = *key;
    for octet in changed.iter_mut() {
        *octet ^= 0x55;
    }
    changed
}

// How many blocks CL bits need (4.5).
#[tactic(auto, unfolding(crate::specs::Kgcore::blocks))]
fn blocks(cl: u32) -> usize
    ensures { result ≡ Kgcore·blocks cl }
{
    cl.div_ceil(64) as usize
}

// Puts the octets of a block to the front of the output, as far as it goes.
fn put(block: u64, output: &mut [u8])
    ensures { let n = min 8 (length output.old) in
        output.new ≡ listed (octet (bit_at 64 block)) n ++ drop n output.old }
{
    let n = output.len().min(8);
    output[..n].copy_from_slice(&block.to_be_bytes()[..n]);
}

// The first CL bits of the blocks, at the front of an output that has room for them. The table and the round keys are prepared once for all blocks.
#[tactic(auto, unfolding(crate::specs::Kgcore::blocks, octets::specs::Bits::size))]
fn generate(inputs: Inputs, key: &[u8; 16], cl: u32, output: &mut [u8])
    requires in_range { (inputs.cb ≤ 31) × (inputs.cd ≤ 1) }
    requires some { 0 < cl }
    requires room { Bits·size cl ≤ length output.old }
    ensures { output.new ≡ stored (key_bit key.now inputs) 0 cl ++ drop (Bits·size cl) output.old }
{
    let size = octets::size(cl);
    let table = sboxes::fi_table();
    let first = kasumi::round_keys(&modified(key)).unwrap();
    let words = kasumi::round_keys(key).unwrap();
    let a = kasumi::cipher_block(&table, &first, register(inputs));
    let mut block = 0;
    // By index: a proof knows nothing of what the pieces of `chunks_mut` end as.
    for n in 0..blocks(cl) {
        block = kasumi::cipher_block(&table, &words, a ^ n as u64 ^ block);
        put(block, &mut output[8 * n..size]);
    }
    let last = size - 1;
    output[last] = octets::first_bits(output[last], cl as usize - 8 * last);
}

// The first CL bits of the keystream, into the output.
#[tactic(auto, using(octets::proofs::Stored::front_stored), unfolding(refusals::specs::Refusal::first, crate::specs::Kgcore::kgcore_order))]
pub fn kgcore(inputs: Inputs, key: &[u8], cl: u32, output: &mut [u8]) -> Result<(), Refusal>
    ensures { Answered (kgcore_call inputs key.now cl output.old) (refusal_of result) [] output.new }
{
    let Ok(key) = <&[u8; 16]>::try_from(key) else {
        return Err(Refusal::Key);
    };
    if 31 < inputs.cb || 1 < inputs.cd {
        return Err(Refusal::Range);
    }
    if cl == 0 || MOST_BITS < cl {
        return Err(Refusal::Size);
    }
    if output.len() < octets::size(cl) {
        return Err(Refusal::Room);
    }
    generate(inputs, key, cl, output);
    Ok(())
}
