//! The receiver: it takes what arrives, and reports it.

ghost use Rattle.std.specs.Prelude.{◌≡◌, ◌↔◌, ℕ, ◌+◌, ◌≤◌, ◌∷◌, ◌++◌, [], List, Option, None, length, map, replicate, All, IfOk, OnOk, OnErr};
ghost use Rattle.gcc_units.specs.Listed.{bare};
ghost use Rattle.twcc_report.specs.Spelling.{view};
ghost use Rattle.link_path.specs.Division.{Told};
ghost use Rattle.link_path.specs.Building.{IsBuilt};
ghost use Rattle.link_path.specs.Receiver.{IsNext, IsWritable, NumbersRise, heard, next_from, next_reports, told_all};
ghost use Rattle.link_path.specs.Taking.{Step, StandsFor, listed, reported, took};

use crate::building::{Building, ReportList};
use crate::link::Arrival;
use gcc_units::{ARRIVAL_MICROSECONDS, NoMemory};
use std::alloc::Global;
use std::marker::Model;

/// A receiver, with what it took since its last list of reports.
#[derive(Drop)]
pub struct Receiver {
    from: u128,
    last: u32,
    feedback: u8,
    taken: Vec<Arrival>,
}

impl Model for Receiver {
    ghost use Rattle.link_path.specs.Receiver.{KeptReceiver, IsReceiver};

    ghost Value = { KeptReceiver };

    ghost view = { λ r. record { from = r.from; last = r.last; feedback = r.feedback; taken = r.taken.items } };

    ghost invariant = { λ r. IsReceiver r.from r.last r.taken.items };
}

/// Puts in so many numbers that did not arrive.
fn put_missing(building: &mut Building, alloc: Global, count: u64) -> Result<(), NoMemory>
    ensures { OnOk result ((told : Told) (numbers : List (Option ℕ)) → IsBuilt building.old told numbers
        → IsBuilt building.new told (numbers ++ replicate count None)) }
{
    for _i in 0..count {
        building.put(alloc, None)?;
    }
    Ok(())
}

/// Puts in all numbers from one on up to the greatest taken, and answers the number behind it.
fn put_all(
    building: &mut Building,
    alloc: Global,
    from: u128,
    taken: &[Arrival],
) -> Result<u128, NoMemory>
    requires rise { NumbersRise from taken.now }
    ensures built { OnOk result ((told : Told) (numbers : List (Option ℕ)) → IsBuilt building.old told numbers
        → IsBuilt building.new told (numbers ++ heard from taken.now)) }
    ensures next { IfOk result (λ n. n ≡ next_from from taken.now) }
{
    let mut next = from;
    for arrival in taken {
        let missing = u128::from(arrival.number) - next;
        put_missing(building, alloc, missing as u64)?;
        building.put(alloc, Some((arrival.at / ARRIVAL_MICROSECONDS) as u32))?;
        next = u128::from(arrival.number) + 1;
    }
    Ok(next)
}

impl Receiver {
    /// The receiver that took nothing. It takes no memory.
    pub fn new(alloc: Global) -> Self
        ensures value { result ≡ record { from = 0; last = 0; feedback = 0; taken = [] } }
        ensures stands { StandsFor result [] }
    {
        Receiver {
            from: 0,
            last: 0,
            feedback: 0,
            taken: Vec::new(alloc),
        }
    }

    /// Takes a packet that arrived. At `NoMemory` the receiver is as before.
    pub fn take(&mut self, arrival: &Arrival) -> Result<(), NoMemory>
        requires { IsNext self.old arrival.now }
        ensures state { OnOk result (self.new ≡ record self.old { taken = self.old.taken ++ arrival.now ∷ [] }) }
        ensures stands { OnOk result ((steps : List Step) → StandsFor self.old steps → StandsFor self.new (steps ++ took arrival.now ∷ [])) }
        ensures err { OnErr result (self.new ≡ self.old) }
    {
        match self.taken.push(*arrival) {
            Ok(()) => Ok(()),
            Err(_) => Err(NoMemory),
        }
    }

    /// The reports on the numbers that no list told of before, up to the greatest taken. At `NoMemory` the
    /// receiver is as before.
    pub fn reports(&mut self, alloc: Global) -> Result<ReportList, NoMemory>
        ensures value { IfOk result (λ l. map view l.items ≡ next_reports self.old) }

        // It is empty exactly where nothing was taken since the last list.
        ensures empty { IfOk result (λ l. (length l.items ≡ 0) ↔ (self.old.taken ≡ [])) }
        ensures settled { IfOk result (λ l. l ≡ bare l.items) }

        // Each has a spelling.
        ensures writable { IfOk result (λ l. All IsWritable (map view l.items)) }
        ensures state { OnOk result (self.new ≡ told_all self.old) }

        // Of all that it took and all lists before: these are the next of its reports.
        ensures reported { IfOk result (λ l. (steps : List Step) → StandsFor self.old steps
            → reported (steps ++ listed ∷ []) ≡ reported steps ++ map view l.items) }
        ensures stands { OnOk result ((steps : List Step) → StandsFor self.old steps → StandsFor self.new (steps ++ listed ∷ [])) }
        ensures err { OnErr result (self.new ≡ self.old) }
    {
        let mut building = Building::new(alloc, self.from, self.last, self.feedback);
        let next = put_all(&mut building, alloc, self.from, self.taken.as_slice())?;
        building.end(alloc)?;
        building.reports.settle();
        self.from = next;
        self.last = building.before;
        self.feedback = building.feedback;
        self.taken.clear();
        Ok(building.reports)
    }
}
