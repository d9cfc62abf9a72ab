// The form of a line of `challenge`: its fields, the word and the values.
ghost use Rattle.std.specs.Prelude.{◌≡◌, ◌+◌, ◌*◌, ◌≤◌, length, drop};
ghost use Rattle.lines.specs.Text.{AtFront};
ghost use Rattle.challenge.specs.Form.{fields_of, first_size, field_of, is_op, is_word, is_value, octets_of, ends_right, is_challenge};

use refusals::Refusal;

// What stands between two fields.
const SPACE: u8 = b' ';

// The most octets of a value: a line of 160 octets writes no more.
pub(crate) const MOST: usize = 80;

// Where the field that begins at a place ends.
fn field_end(line: &[u8], from: usize) -> usize
    requires { from ≤ length line.now }
    ensures { result ≡ from + first_size (drop from line.now) }
{
    let size = line[from..].iter().position(|octet| *octet == SPACE);
    from + size.unwrap_or(line.len() - from)
}

// Where field k begins; the line's end where there is no such field.
fn field_place(line: &[u8], k: usize) -> usize
    ensures { (result ≤ length line.now) × (field_of k line.now ≡ field_of 0 (drop result line.now)) }
{
    let mut from = 0;
    for _ in 0..k {
        let end = field_end(line, from);
        if end == line.len() {
            return end;
        }
        from = end + 1;
    }
    from
}

// Field k.
fn field(line: &[u8], k: usize) -> &[u8]
    ensures { result.now ≡ field_of k line.now }
{
    let from = field_place(line, k);
    let end = field_end(line, from);
    &line[from..end]
}

// How many fields a line has.
pub(crate) fn count_fields(line: &[u8]) -> usize
    ensures { result ≡ length (fields_of line.now) }
{
    1 + line.iter().filter(|octet| **octet == SPACE).count()
}

// Whether a line gives OP.
pub(crate) fn gives_op(line: &[u8]) -> bool
    ensures { result ≡ is_op (field_of 1 line.now) }
{
    field(line, 1) == b"OP".as_slice()
}

// Whether a line gives OP or OPc.
fn gives_word(line: &[u8]) -> bool
    ensures { result ≡ is_word (field_of 1 line.now) }
{
    if gives_op(line) {
        return true;
    }
    field(line, 1) == b"OPc".as_slice()
}

// Puts the octets that field k writes, and answers how many: none where it is no value.
pub(crate) fn put_value(line: &[u8], k: usize, output: &mut [u8]) -> usize
    requires { length line.now ≤ 2 * length output.old }
    ensures { AtFront (octets_of (field_of k line.now)) output.old result output.new }
{
    lines::octets_of_hex(field(line, k), output).unwrap_or(0)
}

// Whether field k is a value. Where no octet has room, a value is refused for want of it, and nothing else is.
fn has_value(line: &[u8], k: usize) -> bool
    ensures { result ≡ is_value (field_of k line.now) }
{
    match lines::octets_of_hex(field(line, k), &mut []) {
        Ok(_) => false,
        Err(refusal) => matches!(refusal, Refusal::Room),
    }
}

// Whether a line ends after RAND, or after SQN and AMF.
fn ends_right(line: &[u8]) -> bool
    ensures { result ≡ ends_right line.now }
{
    let count = count_fields(line);
    if count != 6 {
        return count == 4;
    }
    if !has_value(line, 4) {
        return false;
    }
    has_value(line, 5)
}

// Whether a line is of the form.
pub(crate) fn is_challenge(line: &[u8]) -> bool
    ensures { result ≡ is_challenge line.now }
{
    if lines::LONGEST < line.len() {
        return false;
    }
    if !has_value(line, 0) {
        return false;
    }
    if !gives_word(line) {
        return false;
    }
    if !has_value(line, 2) {
        return false;
    }
    if !has_value(line, 3) {
        return false;
    }
    ends_right(line)
}
