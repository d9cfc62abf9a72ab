// Calls that are lent an output, whose size is the last field of the line. Every octet of it is AA beforehand, so that one sees which ones the call left
// alone.
use crate::fields::{Failure, Fields, MOST_ROOM, NoCall, Room};
use crate::handed::number_of;
use crate::tell::put_octets;
use refusals::Refusal;

// The last field of a line, which is the size of an output.
pub(crate) fn last_room(fields: &mut Fields<'_>) -> Result<Room, NoCall> {
    let room = fields.number()?;
    fields.end()?;
    Ok(room)
}

// Makes an output of that size, and answers what is told of it.
pub(crate) fn with_output<F: FnOnce(&mut [u8]) -> Result<(), Failure>>(
    room: Room,
    tell: F,
) -> Result<(), Failure>
    requires { F.IsAlwaysCallable tell }
{
    let mut output = [0xAA; MOST_ROOM];
    tell(&mut output[..room.size])
}

// Makes a call with an output, and tells the refusal and the output.
pub(crate) fn lend<F: FnOnce(&mut [u8]) -> Result<(), Refusal>>(
    rt: HostRuntime,
    fields: &mut Fields<'_>,
    call: F,
) -> Result<(), Failure>
    requires { F.IsAlwaysCallable call }
{
    let room = last_room(fields)?;
    with_output(room, |output| {
        let answer = call(output);
        put_octets(rt, number_of(&answer), output, "\n")?;
        Ok(())
    })
}

// Makes a call with two outputs, and tells the refusal and both.
pub(crate) fn lend_two<F: FnOnce(&mut [u8], &mut [u8]) -> Result<(), Refusal>>(
    rt: HostRuntime,
    fields: &mut Fields<'_>,
    call: F,
) -> Result<(), Failure>
    requires { F.IsAlwaysCallable call }
{
    let first_room = fields.number()?;
    let room = last_room(fields)?;
    with_output(first_room, |first| {
        with_output(room, |second| {
            let answer = call(first, second);
            put_octets(rt, number_of(&answer), first, "")?;
            put_octets(rt, "", second, "\n")?;
            Ok(())
        })
    })
}

// A call of two fields of octets and an output: aes KEY BLOCK ROOM, opc KEY OP ROOM and xor OCTETS STREAM ROOM
pub(crate) fn two_strings<F: FnOnce(&[u8], &[u8], &mut [u8]) -> Result<(), Refusal>>(
    rt: HostRuntime,
    fields: &mut Fields<'_>,
    call: F,
) -> Result<(), Failure>
    requires { F.IsAlwaysCallable call }
{
    let first = fields.octets()?;
    let second = fields.octets()?;
    lend(rt, fields, |output| call(first, second, output))
}
