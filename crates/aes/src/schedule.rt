// The key expansion of AES-128: eleven round keys of four words from the four words of the key.
ghost use Rattle.std.specs.Prelude.{◌≡◌, ◌-◌, ◌<◌, ◌≤◌, get_or};
ghost use Rattle.aes.specs.Aes.{sub_word, rot_word, rcon, next_word, expanded as Aes·expanded};

use super::table::sbox;
use super::words::{octet, word_at};

// The powers of x in the field, from x^0 on: the first octets of the round constants.
static POWERS: [u8; 10] = [0x01, 0x02, 0x04, 0x08, 0x10, 0x20, 0x40, 0x80, 0x1B, 0x36];

// The octets of a word one place to the left, each through the S-box.
fn sub_rotated(w: u32) -> u32
    ensures { result ≡ sub_word (rot_word w) }
{
    u32::from_be_bytes([
        sbox(octet(w, 1)),
        sbox(octet(w, 2)),
        sbox(octet(w, 3)),
        sbox(octet(w, 0)),
    ])
}

// The round constant of round j.
fn round_constant(j: usize) -> u32
    requires { (0 < j) × (j ≤ 10) }
    ensures { result ≡ rcon j }
{
    u32::from_be_bytes([POWERS[j - 1], 0, 0, 0])
}

// Word i of the expanded key, from the words before it. The last of them is handed over, so that it need not come back from memory.
fn next_word(key: &[u8; 16], words: &[u32; 44], before: u32, i: usize) -> u32
    requires i_value { i < 44 }
    requires before_value { before ≡ get_or words.now (i - 1) 0 }
    ensures { result ≡ next_word key.now words.now i }
{
    if i < 4 {
        return word_at(key, i);
    }
    if i % 4 == 0 {
        return words[i - 4] ^ (sub_rotated(before) ^ round_constant(i / 4));
    }
    words[i - 4] ^ before
}

// All words, one after the other.
pub(crate) fn expanded(key: &[u8; 16]) -> [u32; 44]
    ensures { result ≡ Aes·expanded key.now 44 }
{
    let mut words = [0u32; 44];
    let mut before = 0;
    for i in 0..44 {
        before = next_word(key, &words, before, i);
        words[i] = before;
    }
    words
}
