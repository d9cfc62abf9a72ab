// Makes any public call: a line of standard input is a call, and a line of standard output everything that it hands out.
#![tactic(auto)]

mod bits;
mod blocks;
mod calls;
mod challenges;
mod ciphers;
mod ends;
mod fields;
mod forms;
mod handed;
mod headers;
mod lending;
mod links;
mod messages;
mod numbers;
mod rounds;
mod states;
mod tell;

use std::io;
use std::io::Read;

// The most octets of a line.
const LONGEST: usize = 8192;

// The octets of a line that were heard so far. Those of a line that is too long are counted, and not all kept. The memory is fixed, as everywhere in this
// project, so the count stands beside it. The `Heard` of `lines` does not serve: that has 160 octets by its entries in the promises, and a `Program` puts
// its answer into one output.
#[derive(Drop)]
struct Heard {
    octets: [u8; LONGEST],
    count: usize,
}

impl Heard {
    fn keep(&mut self, octet: u8) {
        if let Some(place) = self.octets.get_mut(self.count) {
            *place = octet;
        }
        self.count = self.count.saturating_add(1);
    }

    // Has the line answered, and begins a new one.
    fn answer(&mut self, rt: HostRuntime) -> io::Result<()> {
        let count = self.count;
        self.count = 0;
        match self.octets.get(..count) {
            Some(line) => calls::answer(rt, line),
            None => tell::bad(rt),
        }
    }

    // Hears a piece of the input, in which a line end has a line answered.
    fn hear(&mut self, rt: HostRuntime, piece: &[u8]) -> io::Result<()> {
        for octet in piece {
            match octet {
                b'\n' => self.answer(rt)?,
                _ => self.keep(*octet),
            }
        }
        Ok(())
    }

    // The input ends: a last line that no line end ended is answered too.
    fn finish(&mut self, rt: HostRuntime) -> io::Result<()> {
        if self.count == 0 {
            return Ok(());
        }
        self.answer(rt)
    }
}

// A proved loop has to end, and nothing says that the input does: the loop has a number of turns that no run uses up.
fn main(rt: HostRuntime) -> io::Result<()> {
    let mut heard = Heard {
        octets: [0; LONGEST],
        count: 0,
    };
    let mut piece = [0; 65536];
    for _ in 0..u64::MAX {
        let size = rt.stdin().read(&mut piece)?;
        if size == 0 {
            break;
        }
        heard.hear(rt, &piece[..size])?;
    }
    heard.finish(rt)
}
