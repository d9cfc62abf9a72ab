// Reads a script of one command a line, plays it, and writes what the phone, the box and the cell did, a line each.
#![tactic(auto)]

mod acts;
mod columns;
mod hosts;
mod play;
mod plugs;

use std::io;

fn main(rt: HostRuntime) -> io::Result<()> {
    let mut output = [0u8; columns::ROOM];
    let size = play::put_heading(&mut output);
    rt.write_all(&output[..size])?;
    lines::answer_input(&rt, &mut rt.stdin(), play::new_stage(), &mut output).unwrap()?;
    Ok(())
}
