// The calls of the ciphers and the keystreams, whose first field is a key.
use crate::fields::{Failure, Fields};
use crate::handed::{handed_out, number_of};
use crate::lending::{lend, lend_two};
use crate::tell::Told;
use kgcore::Inputs;
use refusals::Refusal;

// kasumi KEY BLOCK
pub(crate) fn kasumi(rt: HostRuntime, fields: &mut Fields<'_>) -> Result<(), Failure> {
    let key = fields.octets()?;
    let block = fields.number()?;
    fields.end()?;
    let ciphered = kasumi::kasumi(key, block);
    println!(rt; "{} {:016X}", number_of(&ciphered), handed_out(ciphered))?;
    Ok(())
}

// prepare_key KEY
pub(crate) fn prepare_key(rt: HostRuntime, fields: &mut Fields<'_>) -> Result<(), Failure> {
    let key = fields.octets()?;
    fields.end()?;
    let prepared = keystreams::prepare_key(key);
    let yielded = handed_out(prepared);
    println!(rt; "{} {}", number_of(&prepared), Told(yielded.as_slice()))?;
    Ok(())
}

// gsm KEY COUNT ROOM1 ROOM2, and ecsd
pub(crate) fn two_blocks<F: FnOnce(&[u8], u32, &mut [u8], &mut [u8]) -> Result<(), Refusal>>(
    rt: HostRuntime,
    fields: &mut Fields<'_>,
    call: F,
) -> Result<(), Failure>
    requires { F.IsAlwaysCallable call }
{
    let key = fields.octets()?;
    let count = fields.number()?;
    lend_two(
        rt,
        fields,
        |block1, block2| call(key, count, block1, block2),
    )
}

// kgcore KEY CA CB CC CD CE CL ROOM
pub(crate) fn kgcore(rt: HostRuntime, fields: &mut Fields<'_>) -> Result<(), Failure> {
    let key = fields.octets()?;
    let inputs = Inputs {
        ca: fields.number()?,
        cb: fields.number()?,
        cc: fields.number()?,
        cd: fields.number()?,
        ce: fields.number()?,
    };
    let cl = fields.number()?;
    lend(rt, fields, |output| kgcore::kgcore(inputs, key, cl, output))
}

// gea4 KEY INPUT DIRECTION M ROOM
pub(crate) fn gea4(rt: HostRuntime, fields: &mut Fields<'_>) -> Result<(), Failure> {
    let key = fields.octets()?;
    let input = fields.number()?;
    let direction = fields.number()?;
    let m = fields.number()?;
    lend(
        rt,
        fields,
        |output| keystreams::gea4(key, input, direction, m, output),
    )
}
