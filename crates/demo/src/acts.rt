// What is done for a line of the script: the phone seals, the box passes, loses, keeps or gives, and the cell opens. What is done with stores and
// plugs is the module `plugs`.
ghost use Rattle.std.specs.Prelude.{◌≡◌, ◌*◌, ◌≤◌, ◌<◌, length, option_map};
ghost use Rattle.std.specs.Result.{result_ok};
ghost use Rattle.refusals.specs.Number.{number_of, candidate_of};
ghost use Rattle.sender.specs.Sealed.{size_in};
ghost use Rattle.lines.specs.Text.{AtFront, ended};
ghost use Rattle.demo.specs.Columns.{column as Columns·column, number_text};
ghost use Rattle.demo.specs.Ends.{phone_after, octets_kept};
ghost use Rattle.demo.specs.Step.{StepCall};
ghost use Rattle.demo.specs.Acts.{is_given, handed_with, passing, losing, keeping, giving, noising, nothing as Acts·nothing, obeyed};

use crate::columns::{self, NONE, ROOM, Row, WIDTH, column, counted, show, show_silent};
use crate::hosts::Phone;
use crate::play::{Frame, Stage};
use crate::plugs;
use refusals::{Refusal, Refused};
use script::{Asked, Why};
use sender::Sealed;

// ---- the phone, the box and the cell

// The phone seals so many frames that are lost.
fn lose_times(phone: &mut Phone, times: u32)
    ensures { phone.new ≡ phone_after times phone.old }
{
    for _ in 0..times {
        let _ = phone.seal(b"lost", &mut [0u8; 46]);
    }
}

// The octets of a frame that is kept; at an empty place there are none.
fn octets_kept(kept: &Option<Frame>) -> &[u8]
    ensures { result.now ≡ octets_kept kept.now }
{
    match kept {
        Some(frame) => &frame.octets[..frame.size.min(46)],
        None => &[],
    }
}

// How the box keeps a frame that was sealed; a text that was refused has none.
fn kept(sealed: Result<Sealed, Refusal>, octets: [u8; 46]) -> Option<Frame>
    ensures { result ≡ option_map (λ frame. record { octets = octets; size = frame.size }) (result_ok sealed) }
{
    match sealed {
        Ok(sealed) => Some(Frame {
            octets,
            size: sealed.size,
        }),
        Err(_) => None,
    }
}

// How many octets a frame has that was sealed; a text that was refused has none.
fn size_in(sealed: Result<Sealed, Refusal>) -> usize
    ensures { result ≡ size_in sealed }
{
    match sealed {
        Ok(sealed) => sealed.size,
        Err(_) => 0,
    }
}

// The column of the number that the cell worked out for what it refuses: it is given with two refusals.
fn given(refused: Refused) -> [u8; WIDTH]
    ensures { result ≡ Columns·column (number_text (is_given (number_of refused.refusal)) (candidate_of refused)) }
{
    match refused.refusal {
        Refusal::Repeat | Refusal::Room => columns::numbered(refused.candidate.unwrap_or(0)),
        _ => NONE,
    }
}

// Hands octets to the cell, and shows its answer beside the phone's column and the box's.
fn hand(
    stage: &mut Stage,
    phone: [u8; WIDTH],
    done: [u8; WIDTH],
    octets: &[u8],
    output: &mut [u8; ROOM],
) -> usize
    ensures { StepCall (handed_with stage.old phone done octets.now) output.old stage.new result output.new }
{
    let mut text = [0u8; 46];
    match stage.cell.open(octets, &mut text) {
        Ok(opened) => {
            let row = Row {
                phone,
                done,
                number: columns::numbered(opened.number),
                answer: columns::answered(Ok(())),
            };
            show(stage, row, &text[..opened.size], output)
        }
        Err(refused) => {
            let row = Row {
                phone,
                done,
                number: given(refused),
                answer: columns::answered(Err(refused.refusal)),
            };
            show(stage, row, b"", output)
        }
    }
}

// ---- what is done for a line

// The phone seals a text, and the box hands the frame to the cell.
pub(crate) fn pass(stage: &mut Stage, text: &[u8], output: &mut [u8; ROOM]) -> usize
    ensures { StepCall (passing stage.old text.now) output.old stage.new result output.new }
{
    let mut frame = [0u8; 46];
    let sealed = stage.phone.seal(text, &mut frame);
    let size = size_in(sealed);
    hand(
        stage,
        columns::sealed(sealed),
        column(b"passed"),
        &frame[..size],
        output,
    )
}

// The phone seals so many frames, and the box loses them all.
pub(crate) fn lose(stage: &mut Stage, count: u32, output: &mut [u8; ROOM]) -> usize
    requires { (0 < count) × (count < 1000) }
    ensures { StepCall (losing stage.old count) output.old stage.new result output.new }
{
    lose_times(&mut stage.phone, count - 1);
    let sealed = stage.phone.seal(b"lost", &mut [0u8; 46]);
    show_silent(
        stage,
        columns::sealed(sealed),
        counted(b"lost ", count),
        output,
    )
}

// The phone seals a text, and the box keeps the frame at place k.
pub(crate) fn keep(stage: &mut Stage, k: usize, text: &[u8], output: &mut [u8; ROOM]) -> usize
    requires { k < 10 }
    ensures { StepCall (keeping stage.old k text.now) output.old stage.new result output.new }
{
    let mut octets = [0u8; 46];
    let sealed = stage.phone.seal(text, &mut octets);
    stage.shelf[k] = kept(sealed, octets);
    show_silent(
        stage,
        columns::sealed(sealed),
        counted(b"kept ", k as u32),
        output,
    )
}

// The box hands the frame kept at place k to the cell, and still keeps it.
pub(crate) fn give(stage: &mut Stage, k: usize, output: &mut [u8; ROOM]) -> usize
    requires { k < 10 }
    ensures { StepCall (giving stage.old k) output.old stage.new result output.new }
{
    let kept = stage.shelf[k];
    hand(
        stage,
        NONE,
        counted(b"gave ", k as u32),
        octets_kept(&kept),
        output,
    )
}

// Nothing is done for a bad line.
pub(crate) fn nothing(stage: &Stage, why: Why, output: &mut [u8; ROOM]) -> usize
    ensures { AtFront (Acts·nothing stage.now why).said output.old result output.new }
{
    show_silent(stage, column(b"?"), column(columns::word_for(why)), output)
}

// The box hands octets of its own to the cell, which are given as pairs of hex digits.
pub(crate) fn noise(stage: &mut Stage, text: &[u8], output: &mut [u8; ROOM]) -> usize
    requires { length text.now ≤ 48 }
    ensures { StepCall (noising stage.old text.now) output.old stage.new result output.new }
{
    let mut octets = [0u8; 46];
    let Ok(count) = lines::octets_of_hex(text, &mut octets) else {
        return nothing(stage, Why::Hex, output);
    };
    hand(stage, NONE, column(b"handed"), &octets[..count], output)
}

// A remark is answered by itself.
pub(crate) fn remark(line: &[u8], output: &mut [u8; ROOM]) -> usize
    requires { length line.now ≤ 48 }
    ensures { AtFront (ended line.now) output.old result output.new }
{
    let end = line.len();
    output[..end].copy_from_slice(line);
    output[end] = b'\n';
    end + 1
}

// Does what a line asks for, and answers it.
pub(crate) fn obey(stage: &mut Stage, line: &[u8], output: &mut [u8; ROOM]) -> usize
    ensures step { StepCall (obeyed stage.old line.now) output.old stage.new result output.new }
    ensures whole { length output.new ≡ length output.old }
{
    let what = match script::asked(line) {
        Ok(what) => what,
        Err(why) => return nothing(stage, why, output),
    };
    match what {
        Asked::Remark => remark(line, output),
        Asked::Pass => pass(stage, line.get(5..).unwrap_or(&[]), output),
        Asked::Lose(count) => lose(stage, count, output),
        Asked::Keep(k) => keep(stage, k, line.get(7..).unwrap_or(&[]), output),
        Asked::Give(k) => give(stage, k, output),
        Asked::Noise => noise(stage, line.get(6..).unwrap_or(&[]), output),
        Asked::StorePhone(count) => plugs::store_phone(stage, count, output),
        Asked::TellPhone => plugs::tell_phone(stage, output),
        Asked::CutPhone => plugs::cut_phone(stage, output),
        Asked::RestartPhone => plugs::restart_phone(stage, output),
        Asked::StoreCell => plugs::store_cell(stage, output),
        Asked::CutCell => plugs::cut_cell(stage, output),
        Asked::RestartCell => plugs::restart_cell(stage, output),
    }
}
