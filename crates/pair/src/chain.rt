// The chain of f9, and the code at its end: the blocks of the padded string, chained by KASUMI.
ghost use Rattle.std.specs.Prelude.{◌≡◌};
ghost use Rattle.octets.specs.Xor.{xored};
ghost use Rattle.pair.specs.F9.{modifier, f9_code};

use super::string::Padded;

// The key under which B is ciphered: the key xor the key modifier KM.
fn modified(key: &[u8; 16]) -> [u8; 16]
    ensures { result ≡ xored key.now modifier }
{
    let mut changed = [0u8; 16];
    octets::xor(key, &[0xAAu8; 16], &mut changed).unwrap();
    changed
}

// The code of a string. The table and the round keys are prepared once for all blocks.
#[tactic(auto, unfolding(crate::specs::F9::zeros_after))]
pub(crate) fn code(key: &[u8; 16], string: Padded) -> u32
    ensures { result ≡ f9_code string.entry.inputs key.now string.entry.message.octets.now string.entry.message.bits }
{
    let table = sboxes::fi_table();
    let words = kasumi::round_keys(key).unwrap();
    let last = kasumi::round_keys(&modified(key)).unwrap();
    let mut a = 0;
    let mut b = 0;
    for n in 0..string.blocks() {
        a = kasumi::cipher_block(&table, &words, a ^ string.block(n));
        b ^= a;
    }
    (kasumi::cipher_block(&table, &last, b) >> 32) as u32
}
