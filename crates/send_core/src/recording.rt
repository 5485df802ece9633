//! What is kept of packets that were sent.

ghost use Rattle.std.specs.Prelude.{◌≡◌, ◌++◌, List, length, map};
ghost use Rattle.sent_history.specs.Events.{Event};
ghost use Rattle.sent_history.specs.Kept.{StandsFor};
ghost use Rattle.send_core.specs.Reports.{cluster_of, outgoing_of, added_of};
ghost use Rattle.send_core.specs.Recording.{TakesSent};

use gcc_units::Moment;
use pacer::{Kind, Sent};
use sent_history::{History, Outgoing};

// The probe cluster that a packet was sent for.
fn cluster_of(kind: Kind) -> Option<u32>
    ensures { result ≡ cluster_of kind }
{
    match kind {
        Kind::Probe(id) => Some(id),
        Kind::Audio | Kind::Media | Kind::Padding => None,
    }
}

// What is kept of a record.
fn outgoing_of(moment: Moment, sent: &Sent) -> Outgoing
    ensures { result ≡ outgoing_of moment sent.now }
{
    Outgoing {
        sent_at: moment,
        size: sent.size,
        cluster: cluster_of(sent.kind),
    }
}

/// Keeps the packets of these records, which were sent at a moment.
pub fn record_sent(history: &mut History, moment: Moment, records: &[Sent])
    requires { TakesSent history.old moment (length records.now) }
    ensures { (events : List Event) → StandsFor history.old events → StandsFor history.new (events ++ map (added_of moment) records.now) }
{
    for sent in records {
        history.add(outgoing_of(moment, sent));
    }
}
