// The calls of bit strings in octets.
use crate::fields::{Failure, Fields};
use crate::lending::lend;

// size BITS
pub(crate) fn size(rt: HostRuntime, fields: &mut Fields<'_>) -> Result<(), Failure> {
    let bits = fields.number()?;
    fields.end()?;
    println!(rt; "{}", octets::size(bits))?;
    Ok(())
}

// first_bits OCTET COUNT
pub(crate) fn first_bits(rt: HostRuntime, fields: &mut Fields<'_>) -> Result<(), Failure> {
    let octet = fields.number()?;
    let count: u32 = fields.number()?;
    fields.end()?;
    println!(rt; "{}", octets::first_bits(octet, count as usize))?;
    Ok(())
}

// octet_or_zero OCTETS PLACE
pub(crate) fn octet_or_zero(rt: HostRuntime, fields: &mut Fields<'_>) -> Result<(), Failure> {
    let source = fields.octets()?;
    let place: u32 = fields.number()?;
    fields.end()?;
    println!(rt; "{}", octets::octet_or_zero(source, place as usize))?;
    Ok(())
}

// cut OCTETS START LENGTH ROOM
pub(crate) fn cut(rt: HostRuntime, fields: &mut Fields<'_>) -> Result<(), Failure> {
    let source = fields.octets()?;
    let start = fields.number()?;
    let count = fields.number()?;
    lend(
        rt,
        fields,
        |output| octets::cut(source, start, count, output),
    )
}
