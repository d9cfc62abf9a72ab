// Reads lines of M, key, INPUT and direction, and writes for each the GEA4 octets as capital hex, a refusal's number, or `?`.
// What is asked is the module `form`, and what is answered the module `requests`.
#![tactic(auto)]

mod form;
mod requests;

use requests::Stream;
use std::io;

// The output has room for the longest answer, so that the call is not refused.
fn main(rt: HostRuntime) -> io::Result<()> {
    let mut output = [0u8; 3041];
    lines::answer_input(&rt, &mut rt.stdin(), Stream, &mut output).unwrap()?;
    Ok(())
}
