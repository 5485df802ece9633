//! The sender as the object of the lock.

ghost use Rattle.std.specs.Prelude.{◌≡◌};

use send_core::{Answer, ApplyFault, Call, Sender};
use std::alloc::Global;
use std::marker::Model;
use turn_lock::Object;

/// A sender that the lock guards. Contracts see it as the sender's history.
#[derive(Drop)]
pub struct Held {
    sender: Sender,
}

impl Model for Held {
    ghost use Rattle.std.specs.Prelude.{List};
    ghost use Rattle.send_core.specs.declared.call.Entry.{Entry};

    ghost Value = { List Entry };

    ghost view = { λ h. h.sender };
}

impl Held {
    /// Puts a sender under the lock.
    pub(crate) fn new(sender: Sender) -> Held
        ensures { result ≡ sender }
    {
        Held { sender }
    }

    /// Gives the sender back.
    pub(crate) fn into_sender(self) -> Sender
        ensures { result ≡ self }
    {
        self.sender
    }
}

impl Object for Held {
    type Call = Call;

    type Reply = Answer;

    type Fault = ApplyFault;

    ghost use Rattle.std.specs.Prelude.{◌≡◌};
    ghost use Rattle.send_core.specs.Reply.{IsLegal, board};
    ghost use Rattle.shared_sender.specs.Served.{answers_of, journal_of, HasWires, Refuses};

    // The journal, each reply with its packets.
    ghost history = { λ h. answers_of h };

    ghost legal = { λ h. IsLegal (journal_of h) × HasWires h };

    ghost refuses = { Refuses };

    ghost board_of = { λ h. board (journal_of h) };

    fn apply(
        &mut self,
        alloc: Global,
        caller: u32,
        call: Call,
    ) -> Result<Answer, (ApplyFault, Call)> {
        let _legal = self.sender.journal();
        self.sender.apply(alloc, caller, call)
    }

    fn board(&self) -> u64 {
        let _legal = self.sender.journal();
        self.sender.board()
    }
}
