//! The laws that a sender's journal keeps.

ghost use Rattle.std.specs.Prelude.{◌≡◌, ◌≢◌, ◌↔◌, ◌≤◌, ◌+◌, ℕ, List, [], ◌∷◌, ◌++◌, length, map, AllPairs, Contains};
ghost use Rattle.gcc_units.specs.declared.limits.TheConstants.{GREATEST_MOMENT};
ghost use Rattle.twcc_report.specs.Spelling.{Feedback};
ghost use Rattle.sent_history.specs.Crediting.{account, outstanding};
ghost use Rattle.sent_history.specs.Balance.{IsOutstanding, IsNamedReceived, expired};
ghost use Rattle.send_core.specs.declared.call.Entry.{Entry};
ghost use Rattle.send_core.specs.History.{at_of, tickets, sent, sent_by};
ghost use Rattle.send_core.specs.Reports.{events};
ghost use Rattle.send_laws.specs.Credits.{Brings, credits, number_of, credited_numbers};
ghost use Rattle.send_laws.specs.Order.{AreInOrder, AreFresh, AreNumbered};

use crate::bytes::entries_have_bytes;
use send_core::Sender;

/// Law of a sender, which its type keeps: the packets of each pace left by priority and then by
/// arrival, and none twice; the records of all that was sent are numbered one after the other from 0
/// on; each report that was served in time credited exactly the packets that were outstanding and
/// that it named received; the replies list just these credits, and no number twice; and each packet
/// was credited, is outstanding or expired.
pub fn keeps_laws(sender: &Sender)
    ensures order { (before rest : List Entry) (e : Entry) → sender.now ≡ before ++ e ∷ rest → AreInOrder (tickets before) (sent before) (sent_by e.reply) }
    ensures fresh { AreFresh [] (sent sender.now) }
    ensures numbers { AreNumbered 0 (sent sender.now) }
    ensures credit { (before rest : List Entry) (e : Entry) (report : Feedback) (n : ℕ) → sender.now ≡ before ++ e ∷ rest
        → Brings e.call report → at_of e.call ≤ GREATEST_MOMENT
        → Contains (map number_of (credits e.reply)) n
        ↔ (IsOutstanding (account (events before)) n × IsNamedReceived (account (events before)) report n) }
    ensures told { (account (events sender.now)).credited ≡ credited_numbers sender.now }
    ensures once { AllPairs (λ (m n : ℕ). m ≢ n) (credited_numbers sender.now) }
    ensures balance { length (sent sender.now) ≡ length (credited_numbers sender.now) + outstanding (events sender.now) + expired (events sender.now) }
{
    entries_have_bytes(sender.journal());
}
