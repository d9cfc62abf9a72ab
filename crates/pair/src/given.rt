// The message of a call: octets that are lent, and how many of their bits it is.
#![tactic(auto)]

ghost use Rattle.std.specs.Prelude.{◌≡◌, ◌<◌, ◌≤◌, IfOk, length};
ghost use Rattle.refusals.specs.Refusal.{first};
ghost use Rattle.refusals.specs.Number.{refusal_of};
ghost use Rattle.octets.specs.Bits.{size as Bits·size};
ghost use Rattle.octets.specs.Octets.{AreOctets};
ghost use Rattle.pair.specs.Message.{message_order};

use refusals::Refusal;

// The most bits of a message.
const MOST_BITS: u32 = 20_000;

// The octets that hold them.
pub(crate) const MOST_OCTETS: usize = 2_500;

#[derive(Clone, Copy)]
pub(crate) struct Message<'a> {
    pub octets: &'a [u8],
    pub bits: u32,
    ghost counted: { (0 < bits) × (bits ≤ 20000) },
    ghost there: { Bits·size bits ≤ length octets.now },
    // Of a slice in a field the check does not know by the type alone that each element is an octet.
    ghost each: { AreOctets octets.now },
}

impl<'a> Message<'a> {
    // The first `bits` bits of the octets.
    #[tactic(auto, unfolding(refusals::specs::Refusal::first, crate::specs::Message::message_order, crate::specs::Message::is_bit_count))]
    pub(crate) fn of(octets: &'a [u8], bits: u32) -> Result<Self, Refusal>
        ensures refusal { refusal_of result ≡ first (message_order octets.now bits) }
        ensures message { IfOk result (λ message. (message.octets.now ≡ octets.now) × (message.bits ≡ bits)) }
    {
        if !(1..=MOST_BITS).contains(&bits) {
            return Err(Refusal::Size);
        }
        if octets.len() < octets::size(bits) {
            return Err(Refusal::Length);
        }
        Ok(Message { octets, bits })
    }

    // How many octets hold it.
    pub(crate) fn size(self) -> usize
        ensures { result ≡ Bits·size self.entry.bits }
    {
        octets::size(self.bits)
    }
}
