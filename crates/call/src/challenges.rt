// The calls of MILENAGE.
use crate::fields::{Failure, Fields};
use crate::lending::lend;
use refusals::Refusal;

// f2 KEY OPC RAND ROOM, and f3, f4, f5 and f5_star
pub(crate) fn result<F: FnOnce(&[u8], &[u8], &[u8], &mut [u8]) -> Result<(), Refusal>>(
    rt: HostRuntime,
    fields: &mut Fields<'_>,
    call: F,
) -> Result<(), Failure>
    requires { F.IsAlwaysCallable call }
{
    let key = fields.octets()?;
    let opc = fields.octets()?;
    let rand = fields.octets()?;
    lend(rt, fields, |output| call(key, opc, rand, output))
}

// f1 KEY OPC RAND SQN AMF ROOM, and f1_star
pub(crate) fn code<F: FnOnce(&[u8], &[u8], &[u8], &[u8], &[u8], &mut [u8]) -> Result<(), Refusal>>(
    rt: HostRuntime,
    fields: &mut Fields<'_>,
    call: F,
) -> Result<(), Failure>
    requires { F.IsAlwaysCallable call }
{
    let key = fields.octets()?;
    let opc = fields.octets()?;
    let rand = fields.octets()?;
    let sqn = fields.octets()?;
    let amf = fields.octets()?;
    lend(rt, fields, |output| call(key, opc, rand, sqn, amf, output))
}
