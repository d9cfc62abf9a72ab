// The columns of an answer, each eleven octets wide, and the line that they stand in.
ghost use Rattle.std.specs.Prelude.{◌≡◌, ◌++◌, ◌+◌, ◌≤◌, ◌<◌, length};
ghost use Rattle.refusals.specs.Number.{number_of, refusal_of};
ghost use Rattle.sender.specs.Sealed.{number_in};
ghost use Rattle.lines.specs.Text.{AtFront, Added, decimal_text};
ghost use Rattle.demo.specs.Words.{refusal_text};
ghost use Rattle.demo.specs.Columns.{column as Columns·column, phone_text, answer_text, why_text, shown as Columns·shown, text_column};
ghost use Rattle.demo.specs.Rows.{line_of, silent_line};

use crate::play::Stage;
use refusals::Refusal;
use script::Why;
use sender::Sealed;

// How wide a column is.
pub(crate) const WIDTH: usize = 11;

// Where the last column begins, which is the text's.
const TEXT: usize = 66;

// The room for an answer: six columns, a text of at most 46 octets, and the line feed.
pub(crate) const ROOM: usize = 113;

// The column where there is nothing to show.
pub(crate) const NONE: [u8; WIDTH] = *b"-          ";

// Of the columns of a line those that are not the same for every line of a stage.
#[derive(Clone, Copy)]
pub(crate) struct Row {
    pub phone: [u8; WIDTH],
    pub done: [u8; WIDTH],
    pub number: [u8; WIDTH],
    pub answer: [u8; WIDTH],
}

// ---- a column

// A text as a column.
#[tactic(auto, unfolding(crate::specs::Columns::column))]
pub(crate) fn column(text: &[u8]) -> [u8; WIDTH]
    requires { length text.now ≤ 11 }
    ensures { result ≡ Columns·column text.now }
{
    let mut column = [b' '; WIDTH];
    column[..text.len()].copy_from_slice(text);
    column
}

// A number in decimal as a column.
pub(crate) fn numbered(number: u32) -> [u8; WIDTH]
    ensures { result ≡ Columns·column (decimal_text number) }
{
    let mut column = [b' '; WIDTH];
    let _ = lines::decimal_of_number(number, &mut column);
    column
}

// A word of at most eight octets and a number of at most three digits as one column.
pub(crate) fn counted(word: &[u8], number: u32) -> [u8; WIDTH]
    requires { (length word.now ≤ 8) × (number < 1000) }
    ensures { result ≡ Columns·column (word.now ++ decimal_text number) }
{
    let mut column = column(word);
    let _ = lines::decimal_of_number(number, &mut column[word.len()..]);
    column
}

// The word for a refusal.
fn word_of(refusal: Refusal) -> &'static [u8; 10]
    ensures { result.now ≡ refusal_text (number_of refusal) }
{
    match refusal {
        Refusal::Key => b"1 key     ",
        Refusal::Range => b"2 range   ",
        Refusal::Size => b"3 size    ",
        Refusal::Room => b"4 room    ",
        Refusal::Length => b"5 length  ",
        Refusal::Version => b"6 version ",
        Refusal::Spare => b"7 spare   ",
        Refusal::Other => b"8 other   ",
        Refusal::Start => b"9 start   ",
        Refusal::End => b"10 end    ",
        Refusal::Repeat => b"11 repeat ",
        Refusal::State => b"12 state  ",
        Refusal::Reserve => b"13 reserve",
    }
}

// The column of what the phone sealed: the number of the frame, or why there is none.
#[tactic(auto, unfolding(crate::specs::Columns::phone_text))]
pub(crate) fn sealed(answer: Result<Sealed, Refusal>) -> [u8; WIDTH]
    ensures { result ≡ Columns·column (phone_text (refusal_of answer) (number_in answer)) }
{
    match answer {
        Ok(sealed) => numbered(sealed.number),
        Err(refusal) => column(word_of(refusal)),
    }
}

// The column of an answer that hands out nothing.
#[tactic(auto, unfolding(crate::specs::Columns::answer_text))]
pub(crate) fn answered(answer: Result<(), Refusal>) -> [u8; WIDTH]
    ensures { result ≡ Columns·column (answer_text (refusal_of answer)) }
{
    match answer {
        Ok(()) => column(b"ok"),
        Err(refusal) => column(word_of(refusal)),
    }
}

// The word for why a line is bad.
pub(crate) fn word_for(why: Why) -> &'static [u8; 10]
    ensures { result.now ≡ why_text why }
{
    match why {
        Why::Long => b"long      ",
        Why::Empty => b"empty     ",
        Why::Octet => b"octet     ",
        Why::Command => b"command   ",
        Why::Count => b"count     ",
        Why::Place => b"place     ",
        Why::Hex => b"hex       ",
    }
}

// ---- a line

// An octet as it is shown.
#[tactic(auto, unfolding(crate::specs::Columns::shown, lines::specs::Digits::within))]
fn shown(octet: u8) -> u8
    ensures { result ≡ Columns·shown octet }
{
    match octet {
        b' '..=b'~' => octet,
        _ => b'.',
    }
}

// Puts the text handed out as it is shown, or a hyphen where none is, and the line feed. Answers the place after them.
fn add_text(text: &[u8], output: &mut [u8; ROOM]) -> usize
    requires { length text.now ≤ 46 }
    ensures { Added (text_column text.now) output.old 66 result output.new }
{
    if text.is_empty() {
        output[TEXT] = b'-';
        output[TEXT + 1] = b'\n';
        return TEXT + 2;
    }
    for (place, octet) in text.iter().enumerate() {
        output[TEXT + place] = shown(*octet);
    }
    let end = TEXT + text.len();
    output[end] = b'\n';
    end + 1
}

// Puts a line at the front of the output, and answers how many octets it has.
pub(crate) fn show(stage: &Stage, row: Row, text: &[u8], output: &mut [u8; ROOM]) -> usize
    requires { length text.now ≤ 46 }
    ensures { AtFront (line_of stage.now row text.now) output.old result output.new }
{
    let Row {
        phone,
        done,
        number,
        answer,
    } = row;
    let reserved = numbered(stage.phone.reserved());
    let next = numbered(stage.cell.next());
    let columns = [phone, reserved, done, number, answer, next];
    let shown = columns.as_flattened();
    output[..TEXT].copy_from_slice(shown);
    add_text(text, output)
}

// Puts a line on which the cell is asked for nothing.
pub(crate) fn show_silent(
    stage: &Stage,
    phone: [u8; WIDTH],
    done: [u8; WIDTH],
    output: &mut [u8; ROOM],
) -> usize
    ensures { AtFront (silent_line stage.now phone done) output.old result output.new }
{
    let row = Row {
        phone,
        done,
        number: NONE,
        answer: NONE,
    };
    show(stage, row, b"", output)
}
