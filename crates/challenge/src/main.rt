// Reads lines of K, OP or OPc, RAND and, where wanted, SQN and AMF, and writes for each the values that MILENAGE works out, a refusal's number, or `?`.
// What is given is the module `form`, and what is answered the module `answers`.
#![tactic(auto)]

mod answers;
mod form;
mod texts;

use answers::Challenge;
use std::io;

// The output has room for the longest answer, so that the call is not refused.
fn main(rt: HostRuntime) -> io::Result<()> {
    let mut output = [0u8; 192];
    lines::answer_input(&rt, &mut rt.stdin(), Challenge, &mut output).unwrap()?;
    Ok(())
}
