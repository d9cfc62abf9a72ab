// What both ends of a numbered, ciphered link share, and the ciphering of a payload under its number.
#![tactic(auto, unfolding(refusals::specs::Among::is_among, refusals::specs::Refusal::first, crate::specs::Link::is_service, crate::specs::Link::is_direction, crate::specs::Link::link_can_arise, crate::specs::Link::link_order, crate::specs::Link::link_of, crate::specs::Link::no_link, crate::specs::Link::is_payload, crate::specs::Link::cipher_order))]

mod ciphering;

ghost use Rattle.std.specs.Prelude.{◌≡◌, []};
ghost use Rattle.std.specs.Result.{result_unwrap_or};
ghost use Rattle.refusals.specs.Number.{refusal_of};
ghost use Rattle.refusals.specs.Call.{Answered};
ghost use Rattle.link.specs.Link.{is_service, link_can_arise, no_link, open_link_call, cipher_call};

use refusals::Refusal;

// The key, the offset IOV, the service number SAPI and the direction. The last two are numbers, since a caller may hand in any, and is refused with 2:
// a narrower type would ask more.
#[derive(Clone, Copy)]
pub struct Link {
    pub key: [u8; 16],
    pub iov: u32,
    pub sapi: u8,
    pub direction: u8,
}

// A service number that TS 44.064 assigns.
fn is_service(sapi: u8) -> bool
    ensures { result ≡ is_service sapi }
{
    matches!(sapi, 1 | 2 | 3 | 5 | 7 | 8 | 9 | 11)
}

// A link whose service number and direction exist. The direction is 0 from phone to cell, and 1 from cell to phone.
pub fn can_arise(link: Link) -> bool
    ensures { result ≡ link_can_arise link }
{
    is_service(link.sapi) && link.direction <= 1
}

// Opens a link, which holds the prepared key.
pub fn open_link(key: &[u8], iov: u32, sapi: u8, direction: u8) -> Result<Link, Refusal>
    ensures { Answered (open_link_call key.now iov sapi direction) (refusal_of result) [] (result_unwrap_or result no_link) }
{
    let link = Link {
        key: keystreams::prepare_key(key)?,
        iov,
        sapi,
        direction,
    };
    if !can_arise(link) {
        return Err(Refusal::Range);
    }
    Ok(link)
}

// Puts a payload, ciphered or deciphered as that of a number, to the front of the output.
pub fn cipher(link: Link, number: u32, payload: &[u8], output: &mut [u8]) -> Result<(), Refusal>
    ensures { Answered (cipher_call link number payload.now output.old) (refusal_of result) [] output.new }
{
    if !can_arise(link) {
        return Err(Refusal::State);
    }
    if !(1..=frames::MOST_PAYLOAD).contains(&payload.len()) {
        return Err(Refusal::Size);
    }
    if output.len() < payload.len() {
        return Err(Refusal::Room);
    }
    link.put_ciphered(number, payload, output);
    Ok(())
}
