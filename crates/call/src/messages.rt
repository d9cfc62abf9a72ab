// The calls of the third generation pair, which take a key and a message.
use crate::fields::{Failure, Fields, NoCall};
use crate::handed::{handed_out, number_of};
use crate::lending::lend;
use pair::{F8Inputs, F9Inputs};

// f8 KEY COUNT BEARER DIRECTION MESSAGE BITS ROOM
pub(crate) fn f8(rt: HostRuntime, fields: &mut Fields<'_>) -> Result<(), Failure> {
    let key = fields.octets()?;
    let inputs = F8Inputs {
        count: fields.number()?,
        bearer: fields.number()?,
        direction: fields.number()?,
    };
    let message = fields.octets()?;
    let bits = fields.number()?;
    lend(
        rt,
        fields,
        |output| pair::f8(inputs, key, message, bits, output),
    )
}

// f9 KEY COUNT FRESH DIRECTION MESSAGE BITS
pub(crate) fn f9(rt: HostRuntime, fields: &mut Fields<'_>) -> Result<(), Failure> {
    let key = fields.octets()?;
    let inputs = f9_inputs(fields)?;
    let message = fields.octets()?;
    let bits = fields.number()?;
    fields.end()?;
    let made = pair::f9(inputs, key, message, bits);
    println!(rt; "{} {:08X}", number_of(&made), handed_out(made))?;
    Ok(())
}

// check_code KEY COUNT FRESH DIRECTION MESSAGE BITS CODE
pub(crate) fn check_code(rt: HostRuntime, fields: &mut Fields<'_>) -> Result<(), Failure> {
    let key = fields.octets()?;
    let inputs = f9_inputs(fields)?;
    let message = fields.octets()?;
    let bits = fields.number()?;
    let code = fields.number()?;
    fields.end()?;
    let checked = pair::check_code(inputs, key, message, bits, code);
    println!(rt; "{} {}", number_of(&checked), handed_out(checked) as u8)?;
    Ok(())
}

// COUNT FRESH DIRECTION
fn f9_inputs(fields: &mut Fields<'_>) -> Result<F9Inputs, NoCall> {
    Ok(F9Inputs {
        count: fields.number()?,
        fresh: fields.number()?,
        direction: fields.number()?,
    })
}
