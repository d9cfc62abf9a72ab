// The calls of the numbering.
use crate::fields::{Failure, Fields};
use crate::handed::{numbered, refused_number};
use crate::states::State;
use crate::tell::Told;
use numbering::Numbering;

// start
pub(crate) fn start(rt: HostRuntime, fields: &mut Fields<'_>) -> Result<(), Failure> {
    fields.end()?;
    println!(rt; "{}", Told(numbering::start()))?;
    Ok(())
}

// number NEXT MARKS N
pub(crate) fn number(rt: HostRuntime, fields: &mut Fields<'_>) -> Result<(), Failure> {
    let mut numbering = Numbering::read(fields)?;
    let sent = fields.number()?;
    fields.end()?;
    let answer = numbering::number(&mut numbering, sent);
    println!(rt;
        "{} {} {}",
        refused_number(&answer),
        numbered(answer),
        Told(numbering)
    )?;
    Ok(())
}
