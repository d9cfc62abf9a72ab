// The call of what both ends of a link share.
use crate::fields::{Failure, Fields};
use crate::lending::lend;
use crate::states::State;
use link::Link;

// cipher LINK NUMBER PAYLOAD ROOM
pub(crate) fn cipher(rt: HostRuntime, fields: &mut Fields<'_>) -> Result<(), Failure> {
    let link = Link::read(fields)?;
    let number = fields.number()?;
    let payload = fields.octets()?;
    lend(
        rt,
        fields,
        |output| link::cipher(link, number, payload, output),
    )
}
