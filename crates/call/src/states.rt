// The states, as fields of a line, and the calls that open one, restore one, or ask whether one can arise.
use crate::fields::{Failure, Fields, NoCall};
use crate::handed::{Handed, handed_out, number_of};
use crate::tell::Told;
use link::Link;
use numbering::Numbering;
use receiver::Receiver;
use refusals::Refusal;
use sender::Sender;
use std::fmt::Display;

pub(crate) trait State: Copy + Drop {
    fn read(fields: &mut Fields<'_>) -> Result<Self, NoCall>;
}

// KEY IOV SAPI DIRECTION
impl State for Link {
    fn read(fields: &mut Fields<'_>) -> Result<Link, NoCall> {
        Ok(Link {
            key: fields.array()?,
            iov: fields.number()?,
            sapi: fields.number()?,
            direction: fields.number()?,
        })
    }
}

// NEXT MARKS
impl State for Numbering {
    fn read(fields: &mut Fields<'_>) -> Result<Numbering, NoCall> {
        Ok(Numbering {
            next: fields.number()?,
            marks: fields.number()?,
        })
    }
}

// LINK NEXT RESERVED
impl State for Sender {
    fn read(fields: &mut Fields<'_>) -> Result<Sender, NoCall> {
        Ok(Sender {
            link: Link::read(fields)?,
            next: fields.number()?,
            reserved: fields.number()?,
        })
    }
}

// LINK NEXT MARKS
impl State for Receiver {
    fn read(fields: &mut Fields<'_>) -> Result<Receiver, NoCall> {
        Ok(Receiver {
            link: Link::read(fields)?,
            numbering: Numbering::read(fields)?,
        })
    }
}

fn tell_opened<T: Handed + Drop>(rt: HostRuntime, opened: Result<T, Refusal>) -> Result<(), Failure>
where
    Told<T>: Display,
{
    println!(rt; "{} {}", number_of(&opened), Told(handed_out(opened)))?;
    Ok(())
}

// open_link KEY IOV SAPI DIRECTION, and open_sender and open_receiver
pub(crate) fn open<T: Handed + Drop, F: FnOnce(&[u8], u32, u8, u8) -> Result<T, Refusal>>(
    rt: HostRuntime,
    fields: &mut Fields<'_>,
    call: F,
) -> Result<(), Failure>
where
    Told<T>: Display,
    requires { F.IsAlwaysCallable call }
{
    let key = fields.octets()?;
    let iov = fields.number()?;
    let sapi = fields.number()?;
    let direction = fields.number()?;
    fields.end()?;
    tell_opened(rt, call(key, iov, sapi, direction))
}

// restore_sender FORM, and restore_receiver
pub(crate) fn restore<T: Handed + Drop, F: FnOnce(&[u8]) -> Result<T, Refusal>>(
    rt: HostRuntime,
    fields: &mut Fields<'_>,
    call: F,
) -> Result<(), Failure>
where
    Told<T>: Display,
    requires { F.IsAlwaysCallable call }
{
    let form = fields.octets()?;
    fields.end()?;
    tell_opened(rt, call(form))
}

// link_can_arise LINK, and numbering_can_arise, sender_can_arise and receiver_can_arise
pub(crate) fn can_arise<T: State, F: FnOnce(T) -> bool>(
    rt: HostRuntime,
    fields: &mut Fields<'_>,
    call: F,
) -> Result<(), Failure>
    requires { F.IsAlwaysCallable call }
{
    let state = T::read(fields)?;
    fields.end()?;
    println!(rt; "{}", call(state) as u8)?;
    Ok(())
}
