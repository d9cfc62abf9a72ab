// The numbering of a receiver: which full number a frame has, of which nine bits are on the air.
#![tactic(auto, unfolding(crate::specs::Numbering::end, crate::specs::Numbering::marks_of, crate::specs::Numbering::mark, crate::specs::Numbering::can_arise, crate::specs::Numbering::is_accepted, crate::specs::Numbering::accepted))]

ghost use Rattle.std.specs.Prelude.{◌≡◌, [], ◌∷◌, ◌+◌, ◌-◌, ◌^◌, ◌≤◌, ◌<◌};
ghost use Rattle.refusals.specs.Number.{refused_of, number_in, CandidateWith};
ghost use Rattle.refusals.specs.Call.{Answered};
ghost use Rattle.numbering.specs.Numbering.{width, end, can_arise, is_accepted, first_from, number_call, accepted, start as Numbering·start};

use refusals::{Refusal, Refused};

// How many numbers behind the next one may still come late.
pub const WIDTH: u32 = 32;

// One more than the last number: 2^27.
pub const END: u32 = 134_217_728;

// The state: the next number V, and the marks: mark k, counted from the lowest bit, is of the number V - 1 - k. A caller may hand in any state, and is
// refused with 12 where it cannot arise, so that the type has no invariant.
#[derive(Clone, Copy, Debug, PartialEq, Eq)]
pub struct Numbering {
    pub next: u32,
    pub marks: u32,
}

// A state that can arise.
pub fn can_arise(numbering: Numbering) -> bool
    ensures { result ≡ can_arise width numbering }
{
    let Numbering { next, marks } = numbering;
    next <= END && (WIDTH <= next || marks >> next == 0) && (next == 0 || marks % 2 == 1)
}

// The steps. Each asks of its number that it is in the window: a type for such a number would have to hold the state too, and would be no plainer.
impl Numbering {
    // The candidate with 512 added, so that it is a number even where the candidate is below 0.
    fn raised(self, sent: u32) -> u32
        requires { (self.next ≤ end) × (sent < 512) }
        ensures { result ≡ first_from (self.next + (512 - width)) sent }
    {
        let low = self.next + (512 - WIDTH);
        low + (sent + (512 - low % 512)) % 512
    }

    // The mask of a number below V: mark V - 1 - n alone.
    fn mask(self, number: u32) -> u32
        requires { (number < self.next) × (self.next ≤ number + width) }
        ensures { result ≡ 2 ^ (self.next - 1 - number) }
    {
        1 << (self.next - 1 - number)
    }

    // A number below V that has its mark.
    fn is_accepted(self, number: u32) -> bool
        requires { self.next ≤ number + width }
        ensures { result ≡ is_accepted self number }
    {
        number < self.next && self.marks & self.mask(number) != 0
    }

    // Accepts a number. A gap as long as the window leaves the mark of the new number alone.
    fn accept(&mut self, number: u32)
        requires { (number < end) × (self.old.next ≤ number + width) }
        ensures { self.new ≡ accepted width self.old number }
    {
        if number < self.next {
            self.marks |= self.mask(number);
            return;
        }
        let after = number + 1;
        let gap = after - self.next;
        self.next = after;
        self.marks = if WIDTH <= gap {
            1
        } else {
            (self.marks << gap) | 1
        };
    }
}

// The numbering of a receiver that has accepted nothing.
pub fn start() -> Numbering
    ensures { result ≡ Numbering·start }
{
    Numbering { next: 0, marks: 0 }
}

// One step: a frame with `sent` on the air is numbered, and accepted or refused. A refused one leaves the numbering as it is.
pub fn number(numbering: &mut Numbering, sent: u32) -> Result<u32, Refused>
    ensures answer { Answered (number_call width numbering.old sent) (refused_of result) (number_in result ∷ []) numbering.new }
    ensures candidate { CandidateWith (number_call width numbering.old sent).candidate_with result }
{
    if !can_arise(*numbering) {
        return Err(Refusal::State.into());
    }
    if 511 < sent {
        return Err(Refusal::Range.into());
    }
    let Some(number) = numbering.raised(sent).checked_sub(512) else {
        return Err(Refusal::Start.into());
    };
    if END <= number {
        return Err(Refusal::End.into());
    }
    if numbering.is_accepted(number) {
        return Err(Refused {
            refusal: Refusal::Repeat,
            candidate: Some(number),
        });
    }
    numbering.accept(number);
    Ok(number)
}
