// The play: a phone end that seals numbered lines, a box that loses, repeats and reorders them, and a cell end that opens them.
// How lines are heard is the crate `lines`, and what the two ends do the crates `sender`, `receiver` and `stored`.
ghost use Rattle.std.specs.Prelude.{◌≡◌, refl};
ghost use Rattle.lines.specs.Text.{AtFront};
ghost use Rattle.demo.specs.declared.play.Stage.{Stage};
ghost use Rattle.demo.specs.Play.{heading as Play·heading, demo_rules, new_stage};

use crate::acts;
use crate::columns::ROOM;
use crate::hosts::{Cell, Keeper, Phone};
use lines::Program;

// The link's offset, service number and direction.
const IOV: u32 = 0x0123_4567;

const SAPI: u8 = 3;

const DIRECTION: u8 = 0;

// A frame that the box keeps, of at most 46 octets. How many goes with it, since memory is fixed here.
#[derive(Clone, Copy)]
pub(crate) struct Frame {
    pub octets: [u8; 46],
    pub size: usize,
}

// The phone, the cell, and the shelf of the box between them, which has ten places for frames.
#[derive(Clone, Copy)]
pub(crate) struct Stage {
    pub phone: Phone,
    pub cell: Cell,
    pub shelf: [Option<Frame>; 10],
}

// The start: nothing on the shelf, and both ends newly opened on one link, whose key is an example that everybody may know. They are stored so, and a
// restart of one is then a new opening.
pub(crate) fn new_stage() -> Stage
    ensures { result ≡ new_stage }
{
    let key = [0u8, 1, 2, 3, 4, 5, 6, 7, 8, 9, 10, 11, 12, 13, 14, 15];
    let mut phone = Phone {
        sender: sender::open_sender(&key, IOV, SAPI, DIRECTION).ok(),
        form: [0u8; stored::SENDER_SIZE],
        keeper: Keeper::Bench,
    };
    let _ = phone.store(0);
    let mut cell = Cell {
        receiver: receiver::open_receiver(&key, IOV, SAPI, DIRECTION).ok(),
        form: [0u8; stored::RECEIVER_SIZE],
    };
    let _ = cell.store();
    Stage {
        phone,
        cell,
        shelf: [None; 10],
    }
}

// Puts the heading at the front of the output, and answers how many octets it has.
pub(crate) fn put_heading(output: &mut [u8; ROOM]) -> usize
    ensures { AtFront Play·heading output.old result output.new }
{
    let heading = b"phone      reserved   box        number     answer     next       text\n";
    output[..71].copy_from_slice(heading);
    71
}

// A line is answered by doing what it asks for, and the stage goes from line to line.
impl Program for Stage {
    ghost State = { Stage };

    ghost state = { λ stage. stage };

    ghost rules = { demo_rules };

    ghost ROOM = { 113 };

    const ROOM: usize = ROOM;

    fn answer(&mut self, line: &[u8], output: &mut [u8]) -> usize {
        acts::obey(self, line, output.first_chunk_mut().unwrap())
    }

    ghost room = { refl };
}
