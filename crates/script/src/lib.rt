// The lines of a script for the bench: what each asks for.
#![tactic(auto)]

pub mod kinds;

ghost use Rattle.std.specs.Prelude.{◌≡◌};
ghost use Rattle.script.specs.Script.{all_printable, count_of, place_of, asked_lose, asked_keep, asked_give, asked_store, asked_cell, asked_phone, asked_command, asked as Script·asked};

pub use kinds::{Asked, Why};

// The most octets of a line of a script.
const LONGEST: usize = 48;

// Whether each octet of a text is printable ASCII.
fn all_printable(text: &[u8]) -> bool
    ensures { result ≡ all_printable text.now }
{
    text.iter().all(|octet| (b' '..=b'~').contains(octet))
}

// A count of one to three digits.
fn count_of(text: &[u8]) -> Option<u32>
    ensures { result ≡ count_of text.now }
{
    if 3 < text.len() {
        return None;
    }
    let count = lines::decimal(text).ok()?;
    Some(count as u32)
}

// A place from 0 to 9.
fn place_of(octet: u8) -> Option<usize>
    ensures { result ≡ place_of octet }
{
    match octet {
        b'0'..=b'9' => Some((octet - b'0') as usize),
        _ => None,
    }
}

// `lose COUNT`, by what stands after `lose `.
fn asked_lose(rest: &[u8]) -> Result<Asked, Why>
    ensures { result ≡ asked_lose rest.now }
{
    let count = count_of(rest).ok_or(Why::Count)?;
    if count == 0 {
        return Err(Why::Count);
    }
    Ok(Asked::Lose(count))
}

// `keep K TEXT`, by what stands after `keep `.
fn asked_keep(rest: &[u8]) -> Result<Asked, Why>
    ensures { result ≡ asked_keep rest.now }
{
    match rest {
        [k, b' ', ..] => Ok(Asked::Keep(place_of(*k).ok_or(Why::Place)?)),
        _ => Err(Why::Place),
    }
}

// `give K`, by what stands after `give `.
fn asked_give(rest: &[u8]) -> Result<Asked, Why>
    ensures { result ≡ asked_give rest.now }
{
    match rest {
        [k] => Ok(Asked::Give(place_of(*k).ok_or(Why::Place)?)),
        _ => Err(Why::Place),
    }
}

// `store phone COUNT`, by what stands after `store phone `. Here a count may be 0.
fn asked_store(rest: &[u8]) -> Result<Asked, Why>
    ensures { result ≡ asked_store rest.now }
{
    Ok(Asked::StorePhone(count_of(rest).ok_or(Why::Count)?))
}

// A line for the cell's stored form, or for its plug. A `match` of the three words asks for 37 proofs, one for each octet that may differ, where `==` asks for
// four; the function below is written alike.
fn asked_cell(line: &[u8]) -> Result<Asked, Why>
    ensures { result ≡ asked_cell line.now }
{
    if line == b"store cell".as_slice() {
        return Ok(Asked::StoreCell);
    }
    if line == b"cut cell".as_slice() {
        return Ok(Asked::CutCell);
    }
    if line == b"restart cell".as_slice() {
        return Ok(Asked::RestartCell);
    }
    Err(Why::Command)
}

// A line for the phone's stored form, or for its plug; or else one for the cell's.
fn asked_phone(line: &[u8]) -> Result<Asked, Why>
    ensures { result ≡ asked_phone line.now }
{
    if let Some(rest) = line.strip_prefix(b"store phone ") {
        return asked_store(rest);
    }
    if line == b"tell phone".as_slice() {
        return Ok(Asked::TellPhone);
    }
    if line == b"cut phone".as_slice() {
        return Ok(Asked::CutPhone);
    }
    if line == b"restart phone".as_slice() {
        return Ok(Asked::RestartPhone);
    }
    asked_cell(line)
}

// A command, by its first word.
fn asked_command(line: &[u8]) -> Result<Asked, Why>
    ensures { result ≡ asked_command line.now }
{
    if line.starts_with(b"pass ") {
        return Ok(Asked::Pass);
    }
    if let Some(rest) = line.strip_prefix(b"lose ") {
        return asked_lose(rest);
    }
    if let Some(rest) = line.strip_prefix(b"keep ") {
        return asked_keep(rest);
    }
    if let Some(rest) = line.strip_prefix(b"give ") {
        return asked_give(rest);
    }
    if line.starts_with(b"noise ") {
        return Ok(Asked::Noise);
    }
    asked_phone(line)
}

// What a line asks for, or why it is bad.
pub fn asked(line: &[u8]) -> Result<Asked, Why>
    ensures { result ≡ Script·asked line.now }
{
    if LONGEST < line.len() {
        return Err(Why::Long);
    }
    if line.is_empty() {
        return Err(Why::Empty);
    }
    if !all_printable(line) {
        return Err(Why::Octet);
    }
    if line.starts_with(b"#") {
        return Ok(Asked::Remark);
    }
    asked_command(line)
}
