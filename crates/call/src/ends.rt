// The calls of the link's two ends.
use crate::fields::{Failure, Fields};
use crate::handed::{number_of, opened_numbers, refused_number, sealed_numbers};
use crate::lending::{last_room, with_output};
use crate::states::State;
use crate::tell::{Told, put_octets};
use receiver::Receiver;
use sender::Sender;

// reserve SENDER RESERVATION
pub(crate) fn reserve(rt: HostRuntime, fields: &mut Fields<'_>) -> Result<(), Failure> {
    let mut sender = Sender::read(fields)?;
    let reserved = fields.number()?;
    fields.end()?;
    let told = sender::reserve(&mut sender, reserved);
    println!(rt; "{} {}", number_of(&told), Told(sender))?;
    Ok(())
}

// seal SENDER PAYLOAD ROOM
pub(crate) fn seal(rt: HostRuntime, fields: &mut Fields<'_>) -> Result<(), Failure> {
    let mut sender = Sender::read(fields)?;
    let payload = fields.octets()?;
    let room = last_room(fields)?;
    with_output(room, |output| {
        let answer = sender::seal(&mut sender, payload, output);
        let (number, size) = sealed_numbers(answer);
        print!(rt; "{} {number} {size} ", number_of(&answer))?;
        put_octets(rt, Told(sender), output, "\n")?;
        Ok(())
    })
}

// open RECEIVER FRAME ROOM
pub(crate) fn open(rt: HostRuntime, fields: &mut Fields<'_>) -> Result<(), Failure> {
    let mut receiver = Receiver::read(fields)?;
    let frame = fields.octets()?;
    let room = last_room(fields)?;
    with_output(room, |output| {
        let answer = receiver::open(&mut receiver, frame, output);
        let (number, size) = opened_numbers(answer);
        print!(rt; "{} {number} {size} ", refused_number(&answer))?;
        put_octets(rt, Told(receiver), output, "\n")?;
        Ok(())
    })
}
