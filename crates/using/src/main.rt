// A phone and a cell in one program: what a program of your own does to send texts over a link, to receive them, and to go on after a pulled plug.
#![tactic(auto)]

ghost use Rattle.std.specs.Prelude.{◌≤◌, IfOk, length};

use receiver::{Opened, Receiver};
use refusals::{Refusal, Refused};
use sender::{Sealed, Sender};
use std::{fmt, io};

// What both ends are opened with. An example: a key that is to keep a secret is not written into a program.
const KEY: [u8; 16] = [0, 1, 2, 3, 4, 5, 6, 7, 8, 9, 10, 11, 12, 13, 14, 15];

const IOV: u32 = 0x0123_4567;

const SAPI: u8 = 3;

const DIRECTION: u8 = 0;

// What a phone stores.
type Form = [u8; stored::SENDER_SIZE];

// Why a text did not go out, or the program ends early: a call was refused, or nothing could be written.
#[derive(Drop)]
enum Failure {
    Refused(Refusal),
    Host(io::Error),
}

// What the program says when it ends early: the refusal or the error, as it says it itself.
impl fmt::Debug for Failure {
    fn fmt<W: fmt::Write>(&self, f: &mut fmt::Formatter<W>) -> fmt::Result {
        match self {
            Failure::Refused(refusal) => write!(f, "{refusal:?}"),
            Failure::Host(error) => write!(f, "{error:?}"),
        }
    }
}

impl From<Refusal> for Failure {
    fn from(refusal: Refusal) -> Failure {
        Failure::Refused(refusal)
    }
}

impl From<io::Error> for Failure {
    fn from(error: io::Error) -> Failure {
        Failure::Host(error)
    }
}

// The sender of a phone, and its disk, for which a field stands: it takes a form whole or not at all.
#[derive(Drop)]
struct Phone {
    sender: Sender,
    disk: Form,
}

impl Phone {
    // The phone at its first start, when no form was ever stored.
    fn open() -> Result<Phone, Refusal> {
        let sender = sender::open_sender(&KEY, IOV, SAPI, DIRECTION)?;
        Ok(Phone {
            sender,
            disk: [0; stored::SENDER_SIZE],
        })
    }

    // The phone at a later start, made from the form that was stored last.
    fn restore(disk: Form) -> Result<Phone, Refusal> {
        let sender = stored::restore_sender(&disk)?;
        Ok(Phone { sender, disk })
    }

    // Stores a higher reservation, and only then tells it to the sender.
    fn reserve(&mut self, rt: HostRuntime) -> Result<(), Failure> {
        let reserved = highest(self.sender.next);
        let mut form = [0; stored::SENDER_SIZE];
        stored::store_sender(self.sender, reserved, &mut form)?;
        self.disk = form;
        println!(rt; "store: numbers below {reserved}")?;
        sender::reserve(&mut self.sender, reserved)?;
        Ok(())
    }

    // Sends a text, whose frame is the front of the buffer. Where the reservation is used up, stores and tells a higher one, and seals then.
    fn send<'a>(
        &mut self,
        rt: HostRuntime,
        text: &[u8],
        buffer: &'a mut [u8],
    ) -> Result<&'a [u8], Failure> {
        let sealed = match seal(&mut self.sender, text, buffer) {
            Err(Refusal::Reserve) => {
                self.reserve(rt)?;
                seal(&mut self.sender, text, buffer)?
            }
            sealed => sealed?,
        };
        println!(rt; "seal: frame {}, {} octets", sealed.number, sealed.size)?;
        Ok(&buffer[..sealed.size])
    }
}

// The highest reservation for a phone with this next number.
fn highest(next: u32) -> u32 {
    next.saturating_add(sender::AHEAD).min(numbering::END)
}

// Seals a text. The frame is the first `size` octets of the buffer.
fn seal(phone: &mut Sender, text: &[u8], buffer: &mut [u8]) -> Result<Sealed, Refusal>
    ensures { IfOk result (λ sealed. sealed.size ≤ length buffer.new) }
{
    sender::seal(phone, text, buffer)
}

// Opens a frame. The text is the first `size` octets of the buffer.
fn open(cell: &mut Receiver, frame: &[u8], buffer: &mut [u8]) -> Result<Opened, Refused>
    ensures { IfOk result (λ opened. opened.size ≤ length buffer.new) }
{
    receiver::open(cell, frame, buffer)
}

// Hands a frame to the cell, and says what came of it.
fn receive(rt: HostRuntime, cell: &mut Receiver, frame: &[u8]) -> io::Result<()> {
    let mut buffer = [0; 1520];
    match open(cell, frame, &mut buffer) {
        Ok(opened) => {
            print!(rt; "open: frame {}, ", opened.number)?;
            rt.write_all(&buffer[..opened.size])?;
            println!(rt)
        }
        Err(
            Refused {
                refusal: Refusal::Repeat,
                candidate: Some(number),
            },
        ) => println!(rt; "open: a repeat of frame {number}"),
        Err(refused) => println!(rt; "open: refused {}", refused.refusal.number()),
    }
}

fn main(rt: HostRuntime) -> Result<(), Failure> {
    let mut phone = Phone::open()?;
    let mut cell = receiver::open_receiver(&KEY, IOV, SAPI, DIRECTION)?;
    let mut buffer = [0; 1526];

    // An empty text is refused: a refused call leaves the phone as it is.
    match phone.send(rt, b"", &mut buffer) {
        Err(Failure::Refused(refusal)) => println!(rt; "seal: refused {}", refusal.number())?,
        sent => {
            sent?;
        }
    }

    let hello = phone.send(rt, b"hello, cell", &mut buffer)?;
    receive(rt, &mut cell, hello)?;
    receive(rt, &mut cell, hello)?;

    let question = phone.send(rt, b"how do you read me?", &mut buffer)?;
    receive(rt, &mut cell, question)?;

    // The plug is pulled, and what is left of the phone is its form on the disk, at whose reservation it goes on.
    let mut phone = Phone::restore(phone.disk)?;
    println!(rt; "restore: next number {}", phone.sender.next)?;
    let again = phone.send(rt, b"back on the air", &mut buffer)?;
    receive(rt, &mut cell, again)?;
    Ok(())
}
