// The padded string of f9, block by block: COUNT and FRESH are block 0; the message, DIRECTION, a 1 and zeros are the blocks after it.
ghost use Rattle.std.specs.Prelude.{◌≡◌, ℕ, ◌+◌, ◌*◌, ◌/◌, ◌<◌, ◌≤◌, length};
ghost use Rattle.octets.specs.Bits.{bit_of, part, number};
ghost use Rattle.pair.specs.F9.{zeros_after, padded, block_of};

use super::F9Inputs;
use super::given::Message;

// The 64 bits of the eight octets from octet `at` on.
fn word(octets: &[u8], at: usize) -> u64
    requires { at + 8 ≤ length octets.now }
    ensures { result ≡ number (λ (j : ℕ). bit_of octets.now (8 * at + j)) 64 }
{
    u64::from_be_bytes(<[u8; 8]>::try_from(&octets[at..at + 8]).unwrap())
}

// `count` bits of the message from bit `start` on, fewer than 64, and zeros after them to 64.
fn rest(message: &[u8], start: u32, count: u32) -> u64
    requires { count < 64 }
    ensures { result ≡ number (part (bit_of message.now) start count) 64 }
{
    let mut octets = [0u8; 8];
    octets::cut(message, start, count, &mut octets).unwrap();
    word(&octets, 0)
}

// What the string is made of.
#[derive(Clone, Copy)]
pub(crate) struct Padded<'a> {
    pub inputs: F9Inputs,
    pub message: Message<'a>,
    ghost in_range: { inputs.direction ≤ 1 },
}

impl Padded<'_> {
    // How many blocks it has.
    #[tactic(auto, unfolding(crate::specs::F9::zeros_after))]
    pub(crate) fn blocks(self) -> u32
        ensures { result ≡ (66 + self.entry.message.bits + zeros_after self.entry.message.bits) / 64 }
    {
        2 + (self.message.bits + 1) / 64
    }

    // Block n of it. A message of which 63 bits are left leaves no room for the 1, which then begins a block of its own.
    #[tactic(auto, unfolding(octets::specs::Bits::size))]
    pub(crate) fn block(self, n: u32) -> u64
        requires within { 64 * n ≤ self.message.bits + 65 }
        ensures { result ≡ block_of (padded self.entry.inputs self.entry.message.octets.now self.entry.message.bits) n }
    {
        let Padded { inputs, message } = self;
        if n == 0 {
            return ((inputs.count as u64) << 32) + inputs.fresh as u64;
        }
        let start = 64 * (n - 1);
        if start + 64 <= message.bits {
            return word(message.octets, (8 * (n - 1)) as usize);
        }
        if message.bits < start {
            return 1 << 63;
        }
        let left = message.bits - start;
        let first = rest(message.octets, start, left);
        if left == 63 {
            return first + inputs.direction as u64;
        }
        first + ((2 * inputs.direction as u64 + 1) << (62 - left))
    }
}
