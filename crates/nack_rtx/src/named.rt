//! Numbers that were named, each once.

ghost use Rattle.std.specs.Prelude.{◌≡◌, [], IfOk, OnOk};
ghost use Rattle.gcc_units.specs.Listed.{bare};
ghost use Rattle.nack_rtx.specs.Running.{with_number};

use crate::nack::SeqList;
use gcc_units::{NoMemory, Sequence};
use std::alloc::Global;
use std::marker::Model;

/// Numbers, each at its first place only, with a flag for each of the 65,536 that says whether it
/// is there.
#[derive(Drop)]
pub(crate) struct Named {
    lost: SeqList,
    seen: Vec<bool>,
}

impl Model for Named {
    ghost use Rattle.std.specs.Prelude.{List, ℕ};
    ghost use Rattle.nack_rtx.specs.Running.{AreSeen};

    ghost Value = { List ℕ };

    ghost view = { λ n. n.lost.items };

    ghost invariant = { λ n. AreSeen n.lost.items n.seen.items };
}

impl Named {
    /// No number.
    pub fn new(alloc: Global) -> Result<Named, NoMemory>
        ensures { IfOk result (λ n. n ≡ []) }
    {
        Ok(Named {
            lost: Sequence::new(alloc),
            seen: vec![in alloc; false; 65536]?,
        })
    }

    /// Names a number once more.
    pub fn add(&mut self, number: u16) -> Result<(), NoMemory>
        ensures { OnOk result (self.new ≡ with_number self.old number) }
    {
        if self.seen[number as usize] {
            return Ok(());
        }
        if self.lost.push(number).is_err() {
            return Err(NoMemory);
        }
        self.seen[number as usize] = true;
        Ok(())
    }

    /// The numbers as a list.
    pub fn into_list(self) -> SeqList
        ensures { result ≡ bare self }
    {
        let mut lost = self.lost;
        lost.settle();
        lost
    }
}
