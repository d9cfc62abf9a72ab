// What is done for a line about stores and plugs: an end is stored, told its reservation, cut or restarted. The phone's functions and the cell's stay
// apart: they differ in the end, in the columns that show its answer and in the words, and that is all of each.
ghost use Rattle.std.specs.Prelude.{◌≤◌, ◌<◌, length};
ghost use Rattle.refusals.specs.Number.{refusal_of};
ghost use Rattle.lines.specs.Text.{AtFront};
ghost use Rattle.demo.specs.Columns.{column};
ghost use Rattle.demo.specs.Step.{StepCall};
ghost use Rattle.demo.specs.Plugs.{phone_shown, cell_shown, cut_shown, storing_phone, telling_phone, cutting_phone, restarting_phone, storing_cell, cutting_cell, restarting_cell};

use crate::columns::{self, NONE, ROOM, Row, column, counted, show, show_silent};
use crate::hosts::Keeper;
use crate::play::Stage;
use refusals::Refusal;

// Shows what the cell answered, on the stage afterwards.
fn show_cell(
    stage: &Stage,
    answer: Result<(), Refusal>,
    done: &[u8],
    output: &mut [u8; ROOM],
) -> usize
    requires { length done.now ≤ 11 }
    ensures { AtFront (cell_shown stage.now (refusal_of answer) done.now).said output.old result output.new }
{
    let row = Row {
        phone: NONE,
        done: column(done),
        number: NONE,
        answer: columns::answered(answer),
    };
    show(stage, row, b"", output)
}

// The phone is stored with a reservation so far above its next number. From now on the script sees to the reservation.
pub(crate) fn store_phone(stage: &mut Stage, count: u32, output: &mut [u8; ROOM]) -> usize
    requires { count < 1000 }
    ensures { StepCall (storing_phone stage.old count) output.old stage.new result output.new }
{
    let reserved = stage.phone.next().saturating_add(count);
    let answer = stage.phone.store(reserved);
    stage.phone.keeper = Keeper::Script;
    show_silent(
        stage,
        columns::answered(answer),
        counted(b"stored ", count),
        output,
    )
}

// The phone is told the reservation that was stored last. From now on the script sees to the reservation.
pub(crate) fn tell_phone(stage: &mut Stage, output: &mut [u8; ROOM]) -> usize
    ensures { StepCall (telling_phone stage.old) output.old stage.new result output.new }
{
    let answer = stage.phone.tell();
    stage.phone.keeper = Keeper::Script;
    show_silent(stage, columns::answered(answer), column(b"told"), output)
}

// The phone's plug is pulled: there is nobody to answer.
pub(crate) fn cut_phone(stage: &mut Stage, output: &mut [u8; ROOM]) -> usize
    ensures { StepCall (cutting_phone stage.old) output.old stage.new result output.new }
{
    stage.phone.sender = None;
    show_silent(stage, NONE, column(b"cut phone"), output)
}

// The phone is made from its stored form.
pub(crate) fn restart_phone(stage: &mut Stage, output: &mut [u8; ROOM]) -> usize
    ensures { StepCall (restarting_phone stage.old) output.old stage.new result output.new }
{
    let answer = stage.phone.restart();
    show_silent(
        stage,
        columns::answered(answer),
        column(b"restarted"),
        output,
    )
}

// The cell is stored.
pub(crate) fn store_cell(stage: &mut Stage, output: &mut [u8; ROOM]) -> usize
    ensures { StepCall (storing_cell stage.old) output.old stage.new result output.new }
{
    let answer = stage.cell.store();
    show_cell(stage, answer, b"stored", output)
}

// The cell's plug is pulled: there is nobody to answer.
pub(crate) fn cut_cell(stage: &mut Stage, output: &mut [u8; ROOM]) -> usize
    ensures { StepCall (cutting_cell stage.old) output.old stage.new result output.new }
{
    stage.cell.receiver = None;
    show_silent(stage, NONE, column(b"cut cell"), output)
}

// The cell is made from its stored form.
pub(crate) fn restart_cell(stage: &mut Stage, output: &mut [u8; ROOM]) -> usize
    ensures { StepCall (restarting_cell stage.old) output.old stage.new result output.new }
{
    let answer = stage.cell.restart();
    show_cell(stage, answer, b"restarted", output)
}
