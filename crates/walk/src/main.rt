// Reads one N a line, walks a receiver's numbering along them, and writes for each N, the candidate, the answer and V afterwards.
// What a line sends and what is answered is the module `walks`.
#![tactic(auto)]

mod walks;

use std::io;

fn main(rt: HostRuntime) -> io::Result<()> {
    let mut output = [0u8; 44];
    let size = walks::put_header(&mut output);
    rt.write_all(&output[..size])?;
    lines::answer_input(&rt, &mut rt.stdin(), walks::start(), &mut output).unwrap()?;
    Ok(())
}
