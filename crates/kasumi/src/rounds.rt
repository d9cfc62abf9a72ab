// The rounds of KASUMI, by a table for FI and the keys of all rounds.
ghost use Rattle.std.specs.Prelude.{◌≡◌, ◌+◌, ◌%◌, ◌<◌};
ghost use Rattle.kasumi.specs.Kasumi.{fl as Kasumi·fl, fo as Kasumi·fo, round};
ghost use Rattle.kasumi.specs.Halves.{bits32, bits64};
ghost use Rattle.kasumi.specs.Lent.{half as Lent·half, fi_by, keys_at};

use super::halves::{Block, Half};
use super::schedule;
use super::schedule::Keys;

// FL on 32 bits.
fn fl(x: Half, kl1: u16, kl2: u16) -> Half
    ensures { bits32 result ≡ Kasumi·fl kl1 kl2 (bits32 x) }
{
    let r = x.r ^ (x.l & kl1).rotate_left(1);
    let l = x.l ^ (r | kl2).rotate_left(1);
    Half { l, r }
}

// What is lent to the rounds: a table for FI, and the keys of all rounds.
#[derive(Clone, Copy)]
pub(crate) struct Prepared<'a> {
    pub table: &'a [u16; 640],
    pub words: &'a [u16; 64],
}

impl Prepared<'_> {
    // Half of FI: what the table has for the nine bits on the left and for the seven on the right.
    fn half(self, x: u16) -> u16
        ensures { result ≡ Lent·half self.entry.table.now x }
    {
        self.table[(x / 128) as usize] ^ self.table[512 + (x % 128) as usize]
    }

    // FI on 16 bits. Its key has the seven bits on the left, and so has the result.
    fn fi(self, x: u16, ki: u16) -> u16
        ensures { result ≡ fi_by self.entry.table.now ki x }
    {
        let met = self.half(x) ^ ki.rotate_left(7);
        self.half(met).rotate_left(9)
    }

    // FO on 32 bits. Its first two FI do not wait for each other.
    fn fo(self, keys: Keys, x: Half) -> Half
        ensures { bits32 result ≡ Kasumi·fo (fi_by self.entry.table.now) keys (bits32 x) }
    {
        let first = self.fi(x.l ^ keys.ko1, keys.ki1) ^ x.r;
        let second = self.fi(x.r ^ keys.ko2, keys.ki2) ^ first;
        let third = self.fi(first ^ keys.ko3, keys.ki3) ^ second;
        Half {
            l: second,
            r: third,
        }
    }

    // An odd round, as round 1 is with these keys: f is FL, then FO.
    fn odd_round(self, keys: Keys, x: Block) -> Block
        ensures { bits64 result ≡ round (fi_by self.entry.table.now) (λ _. keys) 1 (bits64 x) }
    {
        let Block { left, right } = x;
        Block {
            left: right ^ self.fo(keys, fl(left, keys.kl1, keys.kl2)),
            right: left,
        }
    }

    // An even round, as round 2 is with these keys: f is FO, then FL.
    fn even_round(self, keys: Keys, x: Block) -> Block
        ensures { bits64 result ≡ round (fi_by self.entry.table.now) (λ _. keys) 2 (bits64 x) }
    {
        let Block { left, right } = x;
        Block {
            left: right ^ fl(self.fo(keys, left), keys.kl1, keys.kl2),
            right: left,
        }
    }

    // Rounds i and i + 1. The block goes in and out as one number, so that it stays in a register from call to call.
    pub(crate) fn two_rounds(self, i: usize, x: u64) -> u64
        requires { (i % 2 ≡ 1) × (i < 8) }
        ensures { let FI = fi_by self.entry.table.now in let keys_of = keys_at self.entry.words.now in
            result ≡ round FI keys_of (i + 1) (round FI keys_of i x) }
    {
        let odd = self.odd_round(schedule::keys_at(self.words, i), Block::from(x));
        let even = self.even_round(schedule::keys_at(self.words, i + 1), odd);
        u64::from(even)
    }
}
