// How the rounds hold their bits: each word of 16 bits by itself, so that what needs one word does not wait for its neighbour.
ghost use Rattle.std.specs.Prelude.{◌≡◌};
ghost use Rattle.std.specs.Int.Bits.{bit_xor};
ghost use Rattle.kasumi.specs.Halves.{bits32, bits64};

use std::ops::BitXor;

// 32 bits as two words.
#[derive(Clone, Copy)]
pub(crate) struct Half {
    pub l: u16,
    pub r: u16,
}

// 64 bits as two halves.
#[derive(Clone, Copy)]
pub(crate) struct Block {
    pub left: Half,
    pub right: Half,
}

impl From<u64> for Block {
    ghost from_gives = { λ block x. bits64 x ≡ block };

    fn from(block: u64) -> Block {
        Block {
            left: Half {
                l: (block >> 48) as u16,
                r: ((block >> 32) % 0x10000) as u16,
            },
            right: Half {
                l: ((block >> 16) % 0x10000) as u16,
                r: (block % 0x10000) as u16,
            },
        }
    }
}

impl From<Block> for u64 {
    ghost from_gives = { λ x block. block ≡ bits64 x };

    fn from(x: Block) -> u64 {
        ((x.left.l as u64) << 48)
            + ((x.left.r as u64) << 32)
            + ((x.right.l as u64) << 16)
            + x.right.r as u64
    }
}

impl BitXor for Half {
    type Output = Half;

    ghost bitxor_gives = { λ x y both. bits32 both ≡ bit_xor (bits32 x) (bits32 y) };

    fn bitxor(self, other: Half) -> Half {
        Half {
            l: self.l ^ other.l,
            r: self.r ^ other.r,
        }
    }
}
