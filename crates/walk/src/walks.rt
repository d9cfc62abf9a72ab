// What a line of `walk` sends and what is answered: a receiver's numbering, line by line. How lines are heard is the crate `lines`.
ghost use Rattle.std.specs.Prelude.{◌≡◌, ◌+◌, ◌≤◌, [], ◌∷◌, length, refl};
ghost use Rattle.std.specs.Result.{result_unwrap_or};
ghost use Rattle.refusals.specs.Call.{Answered};
ghost use Rattle.refusals.specs.Number.{refusal_of, refused_of, number_in};
ghost use Rattle.lines.specs.Text.{AtFront, Added, put_text_call};
ghost use Rattle.numbering.specs.declared.Numbering.{Numbering};
ghost use Rattle.numbering.specs.Numbering.{start as Numbering·start};
ghost use Rattle.walk.specs.Answer.{sent_of, as_outcome, outcome_of, text_of, sent_text, number_text, refusal_text, field, row};
ghost use Rattle.walk.specs.Walk.{room as Walk·room, walk_rules, header as Walk·header};

use lines::Program;
use numbering::Numbering;
use refusals::{Refusal, Refused};

// What ends a line.
const LINE_FEED: u8 = b'\n';

// What stands between two fields of an answer.
const SPACE: u8 = b' ';

// The largest N on the air.
const LARGEST: u64 = 511;

// What a line sends: N, where the line is good.
fn sent_of(line: &[u8]) -> Option<u32>
    ensures { result ≡ sent_of line.now }
{
    if 3 < line.len() {
        return None;
    }
    let Ok(number) = lines::decimal(line) else {
        return None;
    };
    if LARGEST < number {
        return None;
    }
    Some(number as u32)
}

// What the numbering answers to what was sent. A bad line changes nothing.
fn step(numbering: &mut Numbering, sent: Option<u32>) -> Result<u32, Refused>
    ensures { as_outcome result numbering.new ≡ outcome_of numbering.old sent }
{
    let Some(number) = sent else {
        return Err(Refused::from(Refusal::Range));
    };
    numbering::number(numbering, number)
}

// A field of an answer, without the octet that ends it: a number in decimal, or a word.
#[derive(Clone, Copy)]
enum Shown {
    Number(u32),
    Word(&'static [u8]),
}

// The field of N.
fn shown_sent(sent: Option<u32>) -> Shown
    ensures { text_of result ≡ sent_text sent }
{
    match sent {
        Some(number) => Shown::Number(number),
        None => Shown::Word(b"?"),
    }
}

// The field of the candidate, which the numbering gives with 11 too.
fn shown_candidate(answer: Result<u32, Refused>) -> Shown
    ensures { text_of result ≡ number_text (refused_of answer) (number_in answer) }
{
    match answer {
        Ok(number) => Shown::Number(number),
        Err(refused) => match refused.refusal {
            Refusal::Repeat => Shown::Number(refused.candidate.unwrap_or(0)),
            _ => Shown::Word(b"-"),
        },
    }
}

// The field of the answer.
fn shown_answer(answer: Result<u32, Refused>) -> Shown
    ensures { text_of result ≡ refusal_text (refused_of answer) }
{
    match answer {
        Ok(_) => Shown::Word(b"ok"),
        Err(refused) => Shown::Number(refused.refusal.number() as u32),
    }
}

// Puts the text of a field at the front of the output.
fn put_shown(shown: Shown, output: &mut [u8]) -> Result<usize, Refusal>
    ensures { Answered (put_text_call (text_of shown) output.old) (refusal_of result) (result_unwrap_or result 0 ∷ []) output.new }
{
    match shown {
        Shown::Number(number) => lines::decimal_of_number(number, output),
        Shown::Word(word) => lines::put_text(word, output),
    }
}

// Puts a field from a place on, and the octet that ends it, and answers the place after it.
fn add_field(shown: Shown, ends: u8, output: &mut [u8], place: usize) -> usize
    requires { place + length (field (text_of shown) ends) ≤ length output.old }
    ensures { Added (field (text_of shown) ends) output.old place result output.new }
{
    let end = place + put_shown(shown, &mut output[place..]).unwrap();
    output[end] = ends;
    end + 1
}

// Puts a whole answer.
fn put_row(sent: Option<u32>, answer: Result<u32, Refused>, next: u32, output: &mut [u8]) -> usize
    requires { Walk·room ≤ length output.old }
    ensures { AtFront (row sent (refused_of answer) (number_in answer) next) output.old result output.new }
{
    let number_at = add_field(shown_sent(sent), SPACE, output, 0);
    let answer_at = add_field(shown_candidate(answer), SPACE, output, number_at);
    let next_at = add_field(shown_answer(answer), SPACE, output, answer_at);
    add_field(Shown::Number(next), LINE_FEED, output, next_at)
}

// The program: the numbering goes from line to line.
#[derive(Drop)]
pub(crate) struct Walk {
    pub numbering: Numbering,
}

// The start: nothing is accepted.
pub(crate) fn start() -> Walk
    ensures { result.numbering ≡ Numbering·start }
{
    Walk {
        numbering: numbering::start(),
    }
}

// Puts the header line at the front of the output, and answers how many octets it has.
pub(crate) fn put_header(output: &mut [u8]) -> usize
    requires { Walk·room ≤ length output.old }
    ensures { AtFront Walk·header output.old result output.new }
{
    lines::put_text(b"N number answer next\n", output).unwrap()
}

impl Program for Walk {
    ghost State = { Numbering };

    ghost state = { λ walk. walk.numbering };

    ghost rules = { walk_rules };

    ghost ROOM = { Walk·room };

    // Four fields of at most ten octets, each with the octet that ends it.
    const ROOM: usize = 44;

    fn answer(&mut self, line: &[u8], output: &mut [u8]) -> usize {
        let sent = sent_of(line);
        let answer = step(&mut self.numbering, sent);
        put_row(sent, answer, self.numbering.next, output)
    }

    ghost room = { refl };
}
