// The hosts of the two ends, the phone and the cell: what is stored of each, what each is told, and what is left of each when its plug was pulled. The
// phone seals here too, since its reservation may have to be kept ahead for it.
ghost use Rattle.std.specs.Prelude.{◌≡◌};
ghost use Rattle.refusals.specs.Number.{refusal_of};
ghost use Rattle.demo.specs.Ends.{sender_in, store_answer, stored_phone, tell_answer, told_phone, restart_answer, restarted_phone, kept_ahead, SealCall, receiver_in, store_cell_answer, stored_cell, restart_cell_answer, restarted_cell, OpenCall};

use receiver::{Opened, Receiver};
use refusals::{Refusal, Refused};
use sender::{Sealed, Sender};
use stored::{RECEIVER_SIZE, SENDER_SIZE};

// Who sees to the phone's reservation: the bench keeps it ahead by itself, or the script has it stored and told.
#[derive(Clone, Copy)]
pub(crate) enum Keeper {
    Bench,
    Script,
}

// The phone: its end of the link, none where its plug is pulled, the form of it that was stored last, and who sees to its reservation.
#[derive(Clone, Copy)]
pub(crate) struct Phone {
    pub sender: Option<Sender>,
    pub form: [u8; SENDER_SIZE],
    pub keeper: Keeper,
}

// The cell: its end of the link, none where its plug is pulled, and the form of it that was stored last.
#[derive(Clone, Copy)]
pub(crate) struct Cell {
    pub receiver: Option<Receiver>,
    pub form: [u8; RECEIVER_SIZE],
}

// An end whose plug is pulled refuses every call with 12. Storing and restarting stand here for each end, since one function for both would need a trait
// of the library's calls, and the laws of what each leaves, for the five lines that it saves.
impl Phone {
    // The number of its next frame, 0 where its plug is pulled.
    #[tactic(auto, unfolding(sender::specs::Sender::new_sender))]
    pub(crate) fn next(&self) -> u32
        ensures { result ≡ (sender_in self.now).next }
    {
        match self.sender {
            Some(sender) => sender.next,
            None => 0,
        }
    }

    // Its reservation, 0 where its plug is pulled.
    #[tactic(auto, unfolding(sender::specs::Sender::new_sender))]
    pub(crate) fn reserved(&self) -> u32
        ensures { result ≡ (sender_in self.now).reserved }
    {
        match self.sender {
            Some(sender) => sender.reserved,
            None => 0,
        }
    }

    // Stores the phone with a reservation, or keeps the form that was stored before.
    pub(crate) fn store(&mut self, reserved: u32) -> Result<(), Refusal>
        ensures answered { refusal_of result ≡ (store_answer self.old reserved).refusal }
        ensures phone { self.new ≡ stored_phone self.old reserved }
    {
        let Some(sender) = self.sender else {
            return Err(Refusal::State);
        };
        stored::store_sender(sender, reserved, &mut self.form)
    }

    // Tells the phone the reservation of its stored form, which is where a phone restored from it stands.
    pub(crate) fn tell(&mut self) -> Result<(), Refusal>
        ensures answered { refusal_of result ≡ (tell_answer self.old).refusal }
        ensures phone { self.new ≡ told_phone self.old }
    {
        let Some(sender) = &mut self.sender else {
            return Err(Refusal::State);
        };
        let reserved = match stored::restore_sender(&self.form) {
            Ok(restored) => restored.reserved,
            Err(_) => 0,
        };
        sender::reserve(sender, reserved)
    }

    // Makes the phone from its stored form.
    pub(crate) fn restart(&mut self) -> Result<(), Refusal>
        ensures answered { refusal_of result ≡ (restart_answer self.old).refusal }
        ensures phone { self.new ≡ restarted_phone self.old }
    {
        let restored = stored::restore_sender(&self.form);
        self.sender = restored.ok();
        restored.and(Ok(()))
    }

    // The phone with a reservation above its next number, where the bench keeps one by itself: stored first, and then told.
    fn keep_ahead(&mut self)
        ensures { self.new ≡ kept_ahead self.old }
    {
        let Keeper::Bench = self.keeper else {
            return;
        };
        let next = self.next();
        if self.reserved() <= next {
            let _ = self.store(next.saturating_add(sender::AHEAD).min(numbering::END));
            let _ = self.tell();
        }
    }

    // The phone seals a text.
    pub(crate) fn seal(&mut self, text: &[u8], frame: &mut [u8]) -> Result<Sealed, Refusal>
        ensures { SealCall self.old text.now frame.old result self.new frame.new }
    {
        self.keep_ahead();
        let Some(sender) = &mut self.sender else {
            return Err(Refusal::State);
        };
        sender::seal(sender, text, frame)
    }
}

impl Cell {
    // The next number that it expects, 0 where its plug is pulled.
    #[tactic(auto, unfolding(receiver::specs::Receiver::new_receiver))]
    pub(crate) fn next(&self) -> u32
        ensures { result ≡ (receiver_in self.now).numbering.next }
    {
        match self.receiver {
            Some(receiver) => receiver.numbering.next,
            None => 0,
        }
    }

    // Stores the cell, or keeps the form that was stored before.
    pub(crate) fn store(&mut self) -> Result<(), Refusal>
        ensures answered { refusal_of result ≡ (store_cell_answer self.old).refusal }
        ensures cell { self.new ≡ stored_cell self.old }
    {
        let Some(receiver) = self.receiver else {
            return Err(Refusal::State);
        };
        stored::store_receiver(receiver, &mut self.form)
    }

    // Makes the cell from its stored form.
    pub(crate) fn restart(&mut self) -> Result<(), Refusal>
        ensures answered { refusal_of result ≡ (restart_cell_answer self.old).refusal }
        ensures cell { self.new ≡ restarted_cell self.old }
    {
        let restored = stored::restore_receiver(&self.form);
        self.receiver = restored.ok();
        restored.and(Ok(()))
    }

    // The cell opens what it is handed.
    pub(crate) fn open(&mut self, octets: &[u8], text: &mut [u8]) -> Result<Opened, Refused>
        ensures { OpenCall self.old octets.now text.old result self.new text.new }
    {
        let Some(receiver) = &mut self.receiver else {
            return Err(Refused::from(Refusal::State));
        };
        receiver::open(receiver, octets, text)
    }
}
