// The calls of the bench frame: the look at it, and its header.
use crate::fields::{Failure, Fields, Room};
use crate::handed::number_of;
use crate::lending::lend;
use crate::tell::Told;
use frames::Header;

// look FRAME
pub(crate) fn look(rt: HostRuntime, fields: &mut Fields<'_>) -> Result<(), Failure> {
    let frame = fields.octets()?;
    fields.end()?;
    let looked = frames::look_refusal(frame);
    println!(rt; "{} {}", number_of(&looked), Told(frames::look(frame)))?;
    Ok(())
}

// header FRAME
pub(crate) fn header(rt: HostRuntime, fields: &mut Fields<'_>) -> Result<(), Failure> {
    let frame = fields.octets()?;
    fields.end()?;
    let Header {
        sapi,
        direction,
        sent,
    } = frames::header_of(frame);
    println!(rt; "{sapi} {direction} {sent}")?;
    Ok(())
}

// put_header SAPI DIRECTION N SIZE ROOM
pub(crate) fn put_header(rt: HostRuntime, fields: &mut Fields<'_>) -> Result<(), Failure> {
    let header = Header {
        sapi: fields.number()?,
        direction: fields.number()?,
        sent: fields.number()?,
    };
    let payload: Room = fields.number()?;
    lend(
        rt,
        fields,
        |output| frames::put_header(header, payload.size, output),
    )
}
