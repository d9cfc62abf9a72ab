// The calls of the stored forms of both ends.
use crate::fields::{Failure, Fields};
use crate::lending::lend;
use crate::states::State;
use receiver::Receiver;
use sender::Sender;

// store_sender SENDER RESERVATION ROOM
pub(crate) fn store_sender(rt: HostRuntime, fields: &mut Fields<'_>) -> Result<(), Failure> {
    let sender = Sender::read(fields)?;
    let reserved = fields.number()?;
    lend(
        rt,
        fields,
        |output| stored::store_sender(sender, reserved, output),
    )
}

// store_receiver RECEIVER ROOM
pub(crate) fn store_receiver(rt: HostRuntime, fields: &mut Fields<'_>) -> Result<(), Failure> {
    let receiver = Receiver::read(fields)?;
    lend(
        rt,
        fields,
        |output| stored::store_receiver(receiver, output),
    )
}
