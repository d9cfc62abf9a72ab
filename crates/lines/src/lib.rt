// Text that the programs read and write: digits, numbers, octets as hex, and lines that are heard octet by octet.
#![tactic(auto)]

mod program;

ghost use Rattle.std.specs.Prelude.{◌≡◌, [], ◌∷◌, ◌^◌, ◌<◌, ◌≤◌, length};
ghost use Rattle.std.specs.Result.{result_unwrap_or};
ghost use Rattle.refusals.specs.Number.{refusal_of};
ghost use Rattle.refusals.specs.Call.{Answered};
ghost use Rattle.lines.specs.Digits.{digit_value, all_digits, digits_call, decimal_call, hexadecimal_call};
ghost use Rattle.lines.specs.Text.{AtFront, glyph_of, decimal_text, octets_of_hex_call, hex_of_octets_call, decimal_of_number_call, put_text_call};
ghost use Rattle.lines.specs.Hearing.{silence as Hearing·silence, kept as Hearing·kept, too_long};

pub use program::{Program, answer_input};
use refusals::Refusal;

// The most octets of a line that is kept whole.
pub const LONGEST: usize = 160;

// The value of a hex digit of either case. Any other octet has 16, as in the definition `digit_value`: that is below no base, so one comparison tells the
// digits of a base.
fn digit(octet: u8) -> u8
    ensures { result ≡ digit_value octet }
{
    (octet as char).to_digit(16).unwrap_or(16) as u8
}

// Whether each octet of the text is a digit of the base.
fn all_digits(text: &[u8], base: u64) -> bool
    ensures { result ≡ all_digits base text.now }
{
    text.iter().all(|octet| (digit(*octet) as u64) < base)
}

// A number of one to `most` digits of a base. The callers choose a base and a `most` whose largest number fits. `from_str_radix` does not serve: it takes a
// sign, and a text that is UTF-8.
fn number_in(text: &[u8], base: u64, most: usize) -> Result<u64, Refusal>
    requires { base ^ most ≤ 2 ^ 64 }
    ensures { Answered (digits_call base most text.now) (refusal_of result) (result_unwrap_or result 0 ∷ []) tt }
{
    if text.is_empty() {
        return Err(Refusal::Range);
    }
    if most < text.len() {
        return Err(Refusal::Range);
    }
    if !all_digits(text, base) {
        return Err(Refusal::Range);
    }
    let mut value = 0;
    for octet in text {
        value = value * base + digit(*octet) as u64;
    }
    Ok(value)
}

// A decimal number of one to ten digits.
pub fn decimal(text: &[u8]) -> Result<u64, Refusal>
    ensures { Answered (decimal_call text.now) (refusal_of result) (result_unwrap_or result 0 ∷ []) tt }
{
    number_in(text, 10, 10)
}

// A hex number of one to sixteen digits of either case.
pub fn hexadecimal(text: &[u8]) -> Result<u64, Refusal>
    ensures { Answered (hexadecimal_call text.now) (refusal_of result) (result_unwrap_or result 0 ∷ []) tt }
{
    number_in(text, 16, 16)
}

// Puts the octets that pairs of hex digits write at the front of the output. This and the other calls below that put a text are public, and memory is fixed
// here: each puts into an output that is lent, and answers how many octets it put.
pub fn octets_of_hex(text: &[u8], output: &mut [u8]) -> Result<usize, Refusal>
    ensures { Answered (octets_of_hex_call text.now output.old) (refusal_of result) (result_unwrap_or result 0 ∷ []) output.new }
{
    let count = text.len() / 2;
    if text.len() % 2 != 0 {
        return Err(Refusal::Range);
    }
    if !all_digits(text, 16) {
        return Err(Refusal::Range);
    }
    if output.len() < count {
        return Err(Refusal::Room);
    }
    for k in 0..count {
        output[k] = digit(text[2 * k]) * 16 + digit(text[2 * k + 1]);
    }
    Ok(count)
}

// The digit of a number below 16, with capital letters. Digits are put by hand: `write!` says what it puts of a String alone, and memory is fixed here.
fn glyph(number: u8) -> u8
    requires { number < 16 }
    ensures { result ≡ glyph_of number }
{
    if number < 10 {
        b'0' + number
    } else {
        b'A' + (number - 10)
    }
}

// Puts octets as capital hex at the front of the output, two digits an octet.
pub fn hex_of_octets(octets: &[u8], output: &mut [u8]) -> Result<usize, Refusal>
    ensures { Answered (hex_of_octets_call octets.now output.old) (refusal_of result) (result_unwrap_or result 0 ∷ []) output.new }
{
    let count = 2 * octets.len();
    if output.len() < count {
        return Err(Refusal::Room);
    }
    for (k, octet) in octets.iter().enumerate() {
        output[2 * k] = glyph(octet / 16);
        output[2 * k + 1] = glyph(octet % 16);
    }
    Ok(count)
}

// How many digits a number has in decimal. The recursion is the one of the definition.
fn digits_of(number: u32) -> usize
    ensures { result ≡ length (decimal_text number) }
{
    if number < 10 {
        return 1;
    }
    digits_of(number / 10) + 1
}

// Puts the digits of a number, the highest first.
fn put_digits(number: u32, output: &mut [u8]) -> usize
    requires { length (decimal_text number) ≤ length output.old }
    ensures { AtFront (decimal_text number) output.old result output.new }
{
    let last = glyph((number % 10) as u8);
    if 9 < number {
        let count = put_digits(number / 10, output);
        output[count] = last;
        return count + 1;
    }
    output[0] = last;
    1
}

// Puts a number in decimal at the front of the output, without leading zeros.
pub fn decimal_of_number(number: u32, output: &mut [u8]) -> Result<usize, Refusal>
    ensures { Answered (decimal_of_number_call number output.old) (refusal_of result) (result_unwrap_or result 0 ∷ []) output.new }
{
    if output.len() < digits_of(number) {
        return Err(Refusal::Room);
    }
    Ok(put_digits(number, output))
}

// Puts a text at the front of the output.
pub fn put_text(text: &[u8], output: &mut [u8]) -> Result<usize, Refusal>
    ensures { Answered (put_text_call text.now output.old) (refusal_of result) (result_unwrap_or result 0 ∷ []) output.new }
{
    let count = text.len();
    if output.len() < count {
        return Err(Refusal::Room);
    }
    output[..count].copy_from_slice(text);
    Ok(count)
}

// The line so far. A count above 160 means that the line is too long, which is one line like any other that is too long. Memory is fixed here, so a buffer
// stands beside its count; the entries of `silence` and `kept` in the promises are of these two fields.
#[derive(Clone, Copy)]
pub struct Heard {
    pub octets: [u8; 160],
    pub count: usize,
}

// Nothing heard yet.
pub fn silence() -> Heard
    ensures { result ≡ Hearing·silence }
{
    Heard {
        octets: [0; 160],
        count: 0,
    }
}

// The line that stands for every line that is too long. The definition `heard_line` and the entry `too_long` have this line.
pub fn too_long() -> [u8; 161]
    ensures { result ≡ too_long }
{
    [0; 161]
}

// The line with one octet more.
pub fn kept(heard: Heard, octet: u8) -> Heard
    ensures { result ≡ Hearing·kept heard octet }
{
    if LONGEST <= heard.count {
        return Heard {
            count: LONGEST + 1,
            ..heard
        };
    }
    let mut octets = heard.octets;
    octets[heard.count] = octet;
    Heard {
        octets,
        count: heard.count + 1,
    }
}
