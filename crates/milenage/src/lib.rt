// MILENAGE of TS 35.206, on AES-128: what a phone and its network each work out from a challenge RAND, with the key K that both hold.
#![tactic(auto)]

mod kinds;
mod strings;

ghost use Rattle.std.specs.Prelude.{◌≡◌, [], ◌+◌, ◌-◌, ◌≤◌, take, drop};
ghost use Rattle.refusals.specs.Number.{refusal_of};
ghost use Rattle.refusals.specs.Call.{Answered, puts};
ghost use Rattle.milenage.specs.Milenage.{out, out1};
ghost use Rattle.milenage.specs.Calls.{code_order, result_order};
ghost use Rattle.milenage.specs.Calls.{opc_call, f1_call, f1_star_call, f2_call, f3_call, f4_call, f5_call, f5_star_call};

use kinds::{AK, MAC_A, MAC_S, OUT2, OUT3, OUT4, OUT5, Output, RES, WHOLE};
use refusals::Refusal;
use std::ops::Range;
use strings::{Challenge, in1, put, string};

// OPc, 16 octets, from the operator's OP.
pub fn opc(key: &[u8], op: &[u8], output: &mut [u8]) -> Result<(), Refusal>
    ensures { Answered (opc_call key.now op.now output.old) (refusal_of result) [] output.new }
{
    let key = string(key)?;
    let op = string(op)?;
    if output.len() < 16 {
        return Err(Refusal::Room);
    }
    put(&strings::opc(key, op), output);
    Ok(())
}

// Eight octets of OUT1.
fn code(
    part: Range<usize>,
    key: &[u8],
    opc: &[u8],
    rand: &[u8],
    sqn: &[u8],
    amf: &[u8],
    output: &mut [u8],
) -> Result<(), Refusal>
    requires { (part.end ≡ part.start + 8) × (part.end ≤ 16) }
    ensures { Answered (puts (code_order key.now opc.now rand.now sqn.now amf.now output.old) (take 8 (drop part.start (out1 key.now opc.now rand.now sqn.now amf.now))) output.old) (refusal_of result) [] output.new }
{
    let challenge = Challenge::new(key, opc, rand)?;
    let input = in1(sqn, amf)?;
    if output.len() < 8 {
        return Err(Refusal::Room);
    }
    put(&challenge.out1(&input)[part], output);
    Ok(())
}

// MAC-A, 8 octets: by it the phone knows the network.
pub fn f1(
    key: &[u8],
    opc: &[u8],
    rand: &[u8],
    sqn: &[u8],
    amf: &[u8],
    output: &mut [u8],
) -> Result<(), Refusal>
    ensures { Answered (f1_call key.now opc.now rand.now sqn.now amf.now output.old) (refusal_of result) [] output.new }
{
    code(MAC_A, key, opc, rand, sqn, amf, output)
}

// MAC-S, 8 octets: by it the network knows the phone that asks to set the numbers right.
pub fn f1_star(
    key: &[u8],
    opc: &[u8],
    rand: &[u8],
    sqn: &[u8],
    amf: &[u8],
    output: &mut [u8],
) -> Result<(), Refusal>
    ensures { Answered (f1_star_call key.now opc.now rand.now sqn.now amf.now output.old) (refusal_of result) [] output.new }
{
    code(MAC_S, key, opc, rand, sqn, amf, output)
}

// The result that a part of OUT2 to OUT5 is.
fn result(
    of: Output,
    part: Range<usize>,
    key: &[u8],
    opc: &[u8],
    rand: &[u8],
    output: &mut [u8],
) -> Result<(), Refusal>
    requires { (part.start ≤ part.end) × (part.end ≤ 16) }
    ensures { let size = part.end - part.start in Answered (puts (result_order size key.now opc.now rand.now output.old) (take size (drop part.start (out (record { rotation = of.rotation; constant = of.constant }) key.now opc.now rand.now))) output.old) (refusal_of result) [] output.new }
{
    let challenge = Challenge::new(key, opc, rand)?;
    if output.len() < part.end - part.start {
        return Err(Refusal::Room);
    }
    put(&challenge.out(of)[part], output);
    Ok(())
}

// RES, 8 octets: by it the network knows the phone.
pub fn f2(key: &[u8], opc: &[u8], rand: &[u8], output: &mut [u8]) -> Result<(), Refusal>
    ensures { Answered (f2_call key.now opc.now rand.now output.old) (refusal_of result) [] output.new }
{
    result(OUT2, RES, key, opc, rand, output)
}

// CK, 16 octets.
pub fn f3(key: &[u8], opc: &[u8], rand: &[u8], output: &mut [u8]) -> Result<(), Refusal>
    ensures { Answered (f3_call key.now opc.now rand.now output.old) (refusal_of result) [] output.new }
{
    result(OUT3, WHOLE, key, opc, rand, output)
}

// IK, 16 octets.
pub fn f4(key: &[u8], opc: &[u8], rand: &[u8], output: &mut [u8]) -> Result<(), Refusal>
    ensures { Answered (f4_call key.now opc.now rand.now output.old) (refusal_of result) [] output.new }
{
    result(OUT4, WHOLE, key, opc, rand, output)
}

// AK, 6 octets, by which SQN is hidden on the way to the phone.
pub fn f5(key: &[u8], opc: &[u8], rand: &[u8], output: &mut [u8]) -> Result<(), Refusal>
    ensures { Answered (f5_call key.now opc.now rand.now output.old) (refusal_of result) [] output.new }
{
    result(OUT2, AK, key, opc, rand, output)
}

// AK again, 6 octets, on the way back.
pub fn f5_star(key: &[u8], opc: &[u8], rand: &[u8], output: &mut [u8]) -> Result<(), Refusal>
    ensures { Answered (f5_star_call key.now opc.now rand.now output.old) (refusal_of result) [] output.new }
{
    result(OUT5, AK, key, opc, rand, output)
}
