// What is answered to a line of `stream`. What a line asks is the module `form`, and how lines are heard the crate `lines`.
ghost use Rattle.std.specs.Prelude.{◌≤◌, cond, eqb, length, refl};
ghost use Rattle.refusals.specs.Number.{refusal_of};
ghost use Rattle.lines.specs.Text.{AtFront, decimal_text, hex_text};
ghost use Rattle.stream.specs.Answer.{answer_text, largest_answer};
ghost use Rattle.stream.specs.Stream.{stream_rules};

use crate::form;
use lines::Program;
use refusals::Refusal;

// What ends a line.
const LINE_FEED: u8 = b'\n';

// The answer to a line not of the form.
const BAD: u8 = b'?';

// Puts what GEA4 made of a request: its octets as capital hex, or the refusal's number.
fn put_made(made: Result<(), Refusal>, octets: &[u8], output: &mut [u8]) -> usize
    requires room { largest_answer ≤ length output.old }
    requires limit { length octets.now ≤ 1520 }
    ensures { AtFront (cond (eqb (refusal_of made) 0) (hex_text octets.now) (decimal_text (refusal_of made))) output.old result output.new }
{
    match made {
        Ok(()) => lines::hex_of_octets(octets, output).unwrap(),
        Err(refusal) => lines::decimal_of_number(refusal.number() as u32, output).unwrap(),
    }
}

// Puts the text that answers a line, without its line end.
fn put_text(line: &[u8], output: &mut [u8]) -> usize
    requires { largest_answer ≤ length output.old }
    ensures { AtFront (answer_text line.now) output.old result output.new }
{
    let Some(request) = form::request_of(line) else {
        output[0] = BAD;
        return 1;
    };
    let mut octets = [0u8; 1520];
    let made = keystreams::gea4(
        &request.key,
        request.input,
        request.direction,
        request.m,
        &mut octets,
    );
    put_made(made, &octets[..request.m as usize], output)
}

// The program: nothing goes from line to line.
#[derive(Drop)]
pub(crate) struct Stream;

impl Program for Stream {
    ghost State = { Unit {0} };

    ghost state = { λ _. tt };

    ghost rules = { stream_rules };

    ghost ROOM = { largest_answer };

    // 1,520 pairs of digits and the line feed.
    const ROOM: usize = 3041;

    fn answer(&mut self, line: &[u8], output: &mut [u8]) -> usize {
        let size = put_text(line, output);
        output[size] = LINE_FEED;
        size + 1
    }

    ghost room = { refl };
}
