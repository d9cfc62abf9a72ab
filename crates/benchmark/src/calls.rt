// What is timed: a call with a number under a key, or the eight of a full set of MILENAGE. Each function answers the exclusive or of the octets that were
// handed out, or why there are none.
use frames::Header;
use pair::{F8Inputs, F9Inputs};
use refusals::{Refusal, Refused};
use sender::Sender;

// The key of every call.
const KEY: [u8; 16] = [0, 1, 2, 3, 4, 5, 6, 7, 8, 9, 10, 11, 12, 13, 14, 15];

// The offset, the service and the direction of the link.
const IOV: u32 = 0x0123_4567;

const SAPI: u8 = 3;

const DIRECTION: u8 = 0;

// The exclusive or of octets.
fn sum_of(octets: &[u8]) -> u8 {
    octets.iter().fold(0, |sum, octet| sum ^ octet)
}

pub(crate) fn gea4(number: u32, m: u32, output: &mut [u8]) -> Result<u8, Refusal> {
    keystreams::gea4(&KEY, number, 0, m, output)?;
    Ok(sum_of(output))
}

pub(crate) fn gsm(number: u32) -> Result<u8, Refusal> {
    let mut block1 = [0; 15];
    let mut block2 = [0; 15];
    keystreams::gsm(&KEY, number % 4_194_304, &mut block1, &mut block2)?;
    Ok(sum_of(&block1) ^ sum_of(&block2))
}

pub(crate) fn block(number: u32) -> Result<u8, Refusal> {
    let ciphered = kasumi::kasumi(&KEY, number as u64)?;
    Ok((ciphered % 256) as u8)
}

// The sender whose next frame has this number, as it is after it was told a reservation. The telling is not timed: a host does it once in many frames.
fn sender_at(number: u32) -> Result<Sender, Refusal> {
    let link = link::open_link(&KEY, IOV, SAPI, DIRECTION)?;
    let next = number % 134_217_728;
    Ok(Sender {
        link,
        next,
        reserved: next + 1,
    })
}

// The frame with a payload.
pub(crate) fn seal(number: u32, payload: &[u8], output: &mut [u8]) -> Result<u8, Refusal> {
    sender::seal(&mut sender_at(number)?, payload, output)?;
    Ok(sum_of(output))
}

// A frame of number 0 as it comes in: nothing tells its octets from a sender's.
pub(crate) fn open(frame: &mut [u8], output: &mut [u8]) -> Result<u8, Refused> {
    let header = Header {
        sapi: SAPI,
        direction: DIRECTION,
        sent: 0,
    };
    frames::put_header(header, frame.len().saturating_sub(6), frame)?;
    let mut receiver = receiver::open_receiver(&KEY, IOV, SAPI, DIRECTION)?;
    receiver::open(&mut receiver, frame, output)?;
    Ok(sum_of(output))
}

pub(crate) fn f8(number: u32, message: &[u8], bits: u32, output: &mut [u8]) -> Result<u8, Refusal> {
    let inputs = F8Inputs {
        count: number,
        bearer: 0,
        direction: 0,
    };
    pair::f8(inputs, &KEY, message, bits, output)?;
    Ok(sum_of(output))
}

pub(crate) fn f9(number: u32, message: &[u8], bits: u32) -> Result<u8, Refusal> {
    let inputs = F9Inputs {
        count: number,
        fresh: 0,
        direction: 0,
    };
    let code = pair::f9(inputs, &KEY, message, bits)?;
    Ok(sum_of(&code.to_be_bytes()))
}

// OPc and the seven functions of one challenge, whose last two octets go by the number.
pub(crate) fn milenage(number: u32) -> Result<u8, Refusal> {
    let op = [
        0x10, 0x11, 0x12, 0x13, 0x14, 0x15, 0x16, 0x17, 0x18, 0x19, 0x1A, 0x1B, 0x1C, 0x1D, 0x1E,
        0x1F,
    ];
    let [.., high, low] = number.to_be_bytes();
    let rand = [
        0x20,
        0x21,
        0x22,
        0x23,
        0x24,
        0x25,
        0x26,
        0x27,
        0x28,
        0x29,
        0x2A,
        0x2B,
        0x2C,
        0x2D,
        0x2E ^ high,
        0x2F ^ low,
    ];
    let mut opc = [0; 16];
    milenage::opc(&KEY, &op, &mut opc)?;
    Ok(sum_of(&opc) ^ codes(&opc, &rand)? ^ results(&opc, &rand)?)
}

// f1 and f1*.
fn codes(opc: &[u8], rand: &[u8]) -> Result<u8, Refusal> {
    let sqn = [0x30, 0x31, 0x32, 0x33, 0x34, 0x35];
    let amf = [0x40, 0x41];
    let mut code = [0; 8];
    milenage::f1(&KEY, opc, rand, &sqn, &amf, &mut code)?;
    let mut other = [0; 8];
    milenage::f1_star(&KEY, opc, rand, &sqn, &amf, &mut other)?;
    Ok(sum_of(&code) ^ sum_of(&other))
}

// f2 to f5, and f5*.
fn results(opc: &[u8], rand: &[u8]) -> Result<u8, Refusal> {
    let mut res = [0; 8];
    milenage::f2(&KEY, opc, rand, &mut res)?;
    let mut ck = [0; 16];
    milenage::f3(&KEY, opc, rand, &mut ck)?;
    let mut ik = [0; 16];
    milenage::f4(&KEY, opc, rand, &mut ik)?;
    let mut ak = [0; 6];
    milenage::f5(&KEY, opc, rand, &mut ak)?;
    let mut other = [0; 6];
    milenage::f5_star(&KEY, opc, rand, &mut other)?;
    Ok(sum_of(&res) ^ sum_of(&ck) ^ sum_of(&ik) ^ sum_of(&ak) ^ sum_of(&other))
}
