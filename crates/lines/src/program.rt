// A program that answers lines: the octets of its input are heard one by one, and the answers to its lines are written.
ghost use Rattle.std.specs.Prelude.{◌≡◌, ◌≤◌, ℕ, IfOk, length};
ghost use Rattle.std.specs.Result.{result_unwrap_or};
ghost use Rattle.refusals.specs.Number.{refusal_of};
ghost use Rattle.refusals.specs.Refusal.{first};
ghost use Rattle.lines.specs.Text.{AtFront, room_order};
ghost use Rattle.lines.specs.Hearing.{silence as Hearing·silence, heard_line, Rules, stands, heard_after, HearCall, FinishCall, Finished, Reached};

use crate::{Heard, LONGEST, kept, silence, too_long};
use refusals::Refusal;
use std::io;
use std::io::Read;

// What ends a line.
const LINE_FEED: u8 = b'\n';

// A program that answers lines, each by the line alone and by what the lines before it made of the program.
pub trait Program {
    ghost State: { Type 0 };

    ghost state: { Self → State };

    ghost rules: { Rules State };

    // The room that an output must have.
    ghost ROOM: { ℕ };

    const ROOM: usize;

    // Puts the answer to a line at the front of the output, and answers how many octets it has: `AtFront` says that the rest of the output is kept, of which
    // the theorems speak.
    fn answer(&mut self, line: &[u8], output: &mut [u8]) -> usize
        requires { rules.room ≤ length output.old }
        ensures state { state self.new ≡ rules.after (state self.old) line.now }
        ensures answer { AtFront (rules.answer (state self.old) line.now) output.old result output.new };

    ghost room: { rules.room ≡ ROOM };
}

// Where a program stands between two octets: at itself, and at the line so far.
#[derive(Drop)]
struct Hearer<P> {
    program: P,
    heard: Heard,
}

impl<P: Program> Hearer<P> {
    // The start: at the program, and nothing heard yet.
    fn new(program: P) -> Hearer<P>
        ensures { stands P.state result ≡ record { state = P.state program; heard = Hearing·silence } }
    {
        Hearer {
            program,
            heard: silence(),
        }
    }

    // Has the line heard answered, and begins a new one.
    fn answer_heard(&mut self, output: &mut [u8]) -> usize
        requires { P.rules.room ≤ length output.old }
        ensures state { P.state self.new.program ≡ P.rules.after (P.state self.old.program) (heard_line self.old.heard) }
        ensures heard { self.new.heard ≡ Hearing·silence }
        ensures answer { AtFront (P.rules.answer (P.state self.old.program) (heard_line self.old.heard)) output.old result output.new }
    {
        let heard = self.heard;
        self.heard = silence();
        if LONGEST < heard.count {
            return self.program.answer(&too_long(), output);
        }
        self.program.answer(&heard.octets[..heard.count], output)
    }

    // Hears one octet: a line feed has the line answered and begins a new one, any other octet is kept. Answers how many octets were put at the front of
    // the output.
    fn hear(&mut self, octet: u8, output: &mut [u8]) -> Result<usize, Refusal>
        ensures { HearCall P.rules (stands P.state self.old) octet output.old (refusal_of result) (stands P.state self.new) (result_unwrap_or result 0) output.new }
    {
        if output.len() < P::ROOM {
            return Err(Refusal::Room);
        }
        if octet == LINE_FEED {
            return Ok(self.answer_heard(output));
        }
        self.heard = kept(self.heard, octet);
        Ok(0)
    }

    // The input ends: puts the answer to a last line that has no line end.
    fn finish(&mut self, output: &mut [u8]) -> Result<usize, Refusal>
        ensures then { Finished P.rules (stands P.state self.old) (stands P.state self.new) }
        ensures said { FinishCall P.rules (stands P.state self.old) output.old (refusal_of result) (result_unwrap_or result 0) output.new }
    {
        if output.len() < P::ROOM {
            return Err(Refusal::Room);
        }
        if self.heard.count == 0 {
            return Ok(0);
        }
        Ok(self.answer_heard(output))
    }

    // Hears a piece of the input, octet by octet, and writes each answer.
    fn hear_piece(&mut self, rt: &impl Print, piece: &[u8], output: &mut [u8]) -> io::Result<()>
        requires { P.rules.room ≤ length output.old }
        ensures { IfOk result (λ _. stands P.state self.new ≡ heard_after P.rules (stands P.state self.old) piece.now) }
    {
        for octet in piece {
            let written = self.hear(*octet, output).unwrap();
            rt.write_all(&output[..written])?;
        }
        Ok(())
    }
}

// Answers every line of an input, and writes the answers; hands the program back as the input has left it, or says what could not be read or written. The
// output is where each answer is put: where it has less than the program's room, the call is refused, and reads and writes nothing.
pub fn answer_input<P: Program + Drop>(
    rt: &impl Print,
    input: &mut impl Read,
    program: P,
    output: &mut [u8],
) -> Result<io::Result<P>, Refusal>
    ensures room { refusal_of result ≡ first (room_order P.rules.room output.old) }
    ensures reached { IfOk result (λ answered. IfOk answered (λ last. Reached P.rules (P.state program) (P.state last))) }
{
    if output.len() < P::ROOM {
        return Err(Refusal::Room);
    }
    Ok(answer_all(rt, input, program, output))
}

// A proved loop has to end, and nothing says that the input does, so the loop has a number of turns that no run uses up.
fn answer_all<P: Program + Drop>(
    rt: &impl Print,
    input: &mut impl Read,
    program: P,
    output: &mut [u8],
) -> io::Result<P>
    requires { P.rules.room ≤ length output.old }
    ensures { IfOk result (λ last. Reached P.rules (P.state program) (P.state last)) }
{
    let mut hearer = Hearer::new(program);
    let mut piece = [0u8; 65536];
    for _ in 0..u64::MAX {
        let size = input.read(&mut piece)?;
        if size == 0 {
            break;
        }
        hearer.hear_piece(rt, &piece[..size], output)?;
    }
    let written = hearer.finish(output).unwrap();
    rt.write_all(&output[..written])?;
    Ok(hearer.program)
}
