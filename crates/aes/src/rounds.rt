// The rounds of AES-128. The state is four columns, each one word, and a column after SubBytes, ShiftRows and MixColumns is four look-ups.
ghost use Rattle.std.specs.Prelude.{◌≡◌, ◌<◌};
ghost use Rattle.aes.specs.Aes.{state_of, block_of, mix_columns, add_round_key, round as Aes·round, last_round, cipher};
ghost use Rattle.aes.specs.Columns.{column_of, columns_of, held, gathered};

use super::table::{entry, sbox};
use super::words::{octet, word_at};
use std::array;

// The column whose row k comes from octet k of the kth word, through the S-box, and then mixed: what the table has for row 0, and for each row after it
// one octet further on.
fn mixed(a: u32, b: u32, c: u32, d: u32) -> u32
    ensures { result ≡ column_of (mix_columns (gathered a b c d)) 0 }
{
    entry(octet(a, 0))
        ^ entry(octet(b, 1)).rotate_right(8)
        ^ entry(octet(c, 2)).rotate_right(16)
        ^ entry(octet(d, 3)).rotate_right(24)
}

// The same column, not mixed.
fn substituted(a: u32, b: u32, c: u32, d: u32) -> u32
    ensures { result ≡ column_of (gathered a b c d) 0 }
{
    u32::from_be_bytes([
        sbox(octet(a, 0)),
        sbox(octet(b, 1)),
        sbox(octet(c, 2)),
        sbox(octet(d, 3)),
    ])
}

// Round n. Row k of a column comes from the column k places to the right.
fn round(words: &[u32; 44], n: usize, x: [u32; 4]) -> [u32; 4]
    requires { n < 10 }
    ensures { result ≡ columns_of (Aes·round words.now n (held x)) }
{
    array::from_fn(|c| mixed(x[c], x[(c + 1) % 4], x[(c + 2) % 4], x[(c + 3) % 4])
        ^ words[4 * n + c])
}

// The last round, which mixes no columns. One function for both rounds would take what is done to a column as a closure, and its contract the law that the
// closure works column by column, and be longer than the two.
fn last_round(words: &[u32; 44], x: [u32; 4]) -> [u32; 4]
    ensures { result ≡ columns_of (last_round words.now 10 (held x)) }
{
    array::from_fn(|c| substituted(x[c], x[(c + 1) % 4], x[(c + 2) % 4], x[(c + 3) % 4])
        ^ words[40 + c])
}

// The block's columns, xored with the first round key.
fn first_key_added(words: &[u32; 44], block: &[u8; 16]) -> [u32; 4]
    ensures { result ≡ columns_of (add_round_key words.now 0 (state_of block.now)) }
{
    array::from_fn(|c| word_at(block, c) ^ words[c])
}

// The block that columns hold.
fn block_of(x: [u32; 4]) -> [u8; 16]
    ensures { result ≡ block_of (held x) }
{
    array::from_fn(|i| octet(x[i / 4], i % 4))
}

// Ten rounds over a block.
pub(crate) fn encrypted(words: &[u32; 44], block: &[u8; 16]) -> [u8; 16]
    ensures { result ≡ cipher words.now block.now }
{
    let mut x = first_key_added(words, block);
    for n in 1..10 {
        // The prover does not cover a call whose result is laid in an array at once.
        let next = round(words, n, x);
        x = next;
    }
    block_of(last_round(words, x))
}
