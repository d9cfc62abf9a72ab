// The strings of 128 bits that lie on the way to a result, 16 octets each.
ghost use Rattle.std.specs.Prelude.{◌≡◌, ◌&&◌, ◌++◌, ◌≤◌, ◌<◌, ℕ, List, length, get_or};
ghost use Rattle.refusals.specs.declared.Refusal.TheVariants.{Key, Length};
ghost use Rattle.refusals.specs.Call.{front};
ghost use Rattle.octets.specs.Xor.{xored};
ghost use Rattle.aes.specs.Aes.{cipher, expanded};
ghost use Rattle.milenage.specs.Milenage.{constant_octets, turned, opc_of, in1 as Milenage·in1, out1 as Milenage·out1, out as Milenage·out};
ghost use Rattle.milenage.specs.Calls.{is_string, are_numbers};
ghost use Rattle.milenage.specs.Taken.{Taken};

use super::kinds::{OUT1, Output};
use refusals::Refusal;
use std::array;

// A string of 128 bits has 16 octets.
pub(crate) fn string(octets: &[u8]) -> Result<&[u8; 16], Refusal>
    ensures { Taken result (is_string octets.now) Key (λ whole. whole.now ≡ octets.now) }
{
    let Some(whole) = octets.as_array() else {
        return Err(Refusal::Key);
    };
    Ok(whole)
}

// The octet at a place of SQN followed by AMF. `in1` alone calls it, and tests the two lengths for both.
fn octet(sqn: &[u8], amf: &[u8], place: usize) -> u8
    requires { (length sqn.now ≡ 6) × ((length amf.now ≡ 2) × (place < 8)) }
    ensures { result ≡ get_or (sqn.now ++ amf.now) place 0 }
{
    if place < 6 {
        return sqn[place];
    }
    amf[place - 6]
}

// IN1: SQN of 48 bits and AMF of 16, and both once more.
pub(crate) fn in1(sqn: &[u8], amf: &[u8]) -> Result<[u8; 16], Refusal>
    ensures { Taken result (are_numbers sqn.now amf.now) Length (λ input. input ≡ Milenage·in1 sqn.now amf.now) }
{
    if sqn.len() != 6 || amf.len() != 2 {
        return Err(Refusal::Length);
    }
    Ok(array::from_fn(|i| octet(sqn, amf, i % 8)))
}

// Puts octets to the front of an output that has room for them.
pub(crate) fn put(octets: &[u8], output: &mut [u8])
    requires { length octets.now ≤ length output.old }
    ensures { output.new ≡ front octets.now output.old }
{
    output[..octets.len()].copy_from_slice(octets);
}

// The xor of two strings.
fn xor(a: &[u8; 16], b: &[u8; 16]) -> [u8; 16]
    ensures { result ≡ xored a.now b.now }
{
    array::from_fn(|i| a[i] ^ b[i])
}

impl Output {
    // A string turned by the rotation.
    fn turned(self, string: &[u8; 16]) -> [u8; 16]
        ensures { result ≡ turned self.rotation string.now }
    {
        // By index: `rotate_left` clears a buffer first, and a set of MILENAGE then takes twice as long.
        let places = self.rotation / 8;
        array::from_fn(|i| string[(i + places) % 16])
    }

    // The constant as a string.
    fn octets(self) -> [u8; 16]
        ensures { result ≡ constant_octets self.constant }
    {
        let mut octets = [0; 16];
        octets[15] = self.constant;
        octets
    }
}

// The round keys of a key of 16 octets, which is never refused.
fn round_keys(key: &[u8; 16]) -> [u32; 44]
    ensures { result ≡ expanded key.now 44 }
{
    aes::expand_key(key).unwrap()
}

// OPc from OP.
pub(crate) fn opc(key: &[u8; 16], op: &[u8; 16]) -> [u8; 16]
    ensures { result ≡ opc_of key.now op.now }
{
    let words = round_keys(key);
    let encrypted = aes::encrypt_block(&words, op);
    xor(op, &encrypted)
}

// What each call but `opc` takes: K, OPc and RAND.
#[derive(Clone, Copy)]
pub(crate) struct Challenge<'a> {
    key: &'a [u8; 16],
    opc: &'a [u8; 16],
    rand: &'a [u8; 16],
}

impl<'a> Challenge<'a> {
    // Each of the three has to be a string.
    pub(crate) fn new(
        key: &'a [u8],
        opc: &'a [u8],
        rand: &'a [u8],
    ) -> Result<Challenge<'a>, Refusal>
        ensures { Taken result (is_string key.now && is_string opc.now && is_string rand.now) Key (λ challenge. (challenge.key.now ≡ key.now) × ((challenge.opc.now ≡ opc.now) × (challenge.rand.now ≡ rand.now))) }
    {
        let key = string(key)?;
        let opc = string(opc)?;
        let rand = string(rand)?;
        Ok(Challenge { key, opc, rand })
    }

    // TEMP, by the round keys.
    fn temp(&self, words: &[u32; 44]) -> [u8; 16]
        ensures { result ≡ cipher words.now (xored self.now.rand.now self.now.opc.now) }
    {
        aes::encrypt_block(words, &xor(self.rand, self.opc))
    }

    // An output, by the round keys, from the string that is xored with its constant.
    fn last(&self, words: &[u32; 44], string: &[u8; 16], output: Output) -> [u8; 16]
        ensures { result ≡ xored (cipher words.now (xored string.now (constant_octets output.constant))) self.now.opc.now }
    {
        let block = xor(string, &output.octets());
        let encrypted = aes::encrypt_block(words, &block);
        xor(&encrypted, self.opc)
    }

    // OUT1, from which f1 and f1* are cut, by IN1.
    pub(crate) fn out1(&self, input: &[u8; 16]) -> [u8; 16]
        ensures { (sqn amf : List ℕ) → input.now ≡ Milenage·in1 sqn amf → result ≡ Milenage·out1 self.now.key.now self.now.opc.now self.now.rand.now sqn amf }
    {
        let words = round_keys(self.key);
        let turned = OUT1.turned(&xor(input, self.opc));
        let string = xor(&self.temp(&words), &turned);
        self.last(&words, &string, OUT1)
    }

    // OUT2 to OUT5, each by its own rotation and constant.
    pub(crate) fn out(&self, output: Output) -> [u8; 16]
        ensures { result ≡ Milenage·out (record { rotation = output.rotation; constant = output.constant }) self.now.key.now self.now.opc.now self.now.rand.now }
    {
        let words = round_keys(self.key);
        let turned = output.turned(&xor(&self.temp(&words), self.opc));
        self.last(&words, &turned, output)
    }
}
