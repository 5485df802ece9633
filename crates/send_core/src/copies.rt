//! The two copies of a reply: one for the journal, one for the caller.

ghost use Rattle.std.specs.Prelude.{◌≡◌, ◌≤◌, [], length, IfOk};
ghost use Rattle.gcc_units.specs.Listed.{bare};
ghost use Rattle.send_core.specs.Settled.{IsSettled, HasRoom};

use crate::call::Reply;
use gcc_units::{CreditList, Judged, NoMemory, ShareList};
use pacer::SentList;
use std::alloc::Global;

/// Empty lists with room for those of one reply.
#[derive(Drop)]
pub struct Rooms {
    pub sent: SentList,
    pub received: CreditList,
    pub shares: ShareList,
}

/// Room for so many records, credits and shares.
pub fn room(alloc: Global, sends: u32, credits: u32, shares: u32) -> Result<Rooms, NoMemory>
    ensures no_records { IfOk result (λ r. r.sent.items ≡ []) }
    ensures no_credits { IfOk result (λ r. r.received.items ≡ []) }
    ensures no_shares { IfOk result (λ r. r.shares.items ≡ []) }
    ensures records { IfOk result (λ r. sends ≤ r.sent.spare) }
    ensures credits { IfOk result (λ r. credits ≤ r.received.spare) }
    ensures shares { IfOk result (λ r. shares ≤ r.shares.spare) }
{
    let mut sent = SentList::new(alloc);
    sent.reserve(sends)?;
    let mut received = CreditList::new(alloc);
    received.reserve(credits)?;
    let mut parts = ShareList::new(alloc);
    parts.reserve(shares)?;
    Ok(Rooms {
        sent,
        received,
        shares: parts,
    })
}

/// The same records once more, in room that was reserved.
fn twin_records(sent: &SentList, room: SentList) -> SentList
    requires empty { room.items ≡ [] }
    requires room { length sent.now.items ≤ room.spare }
    ensures { result ≡ bare sent.now.items }
{
    let mut copied = room;
    sent.fill(&mut copied);
    copied.settle();
    copied
}

/// The same credits once more, in room that was reserved.
fn twin_credits(received: &CreditList, room: CreditList) -> CreditList
    requires empty { room.items ≡ [] }
    requires room { length received.now.items ≤ room.spare }
    ensures { result ≡ bare received.now.items }
{
    let mut copied = room;
    received.fill(&mut copied);
    copied.settle();
    copied
}

/// The same judgement once more, in room that was reserved for its credits.
fn twin_judged(judged: &Judged, room: CreditList) -> Judged
    requires settled { judged.now.received ≡ bare judged.now.received.items }
    requires empty { room.items ≡ [] }
    requires room { length judged.now.received.items ≤ room.spare }
    ensures { result ≡ judged.now }
{
    Judged {
        received: twin_credits(&judged.received, room),
        missing: judged.missing,
        unknown: judged.unknown,
        repeated: judged.repeated,
    }
}

/// The same shares once more, in room that was reserved.
fn twin_shares(shares: &ShareList, room: ShareList) -> ShareList
    requires empty { room.items ≡ [] }
    requires room { length shares.now.items ≤ room.spare }
    ensures { result ≡ bare shares.now.items }
{
    let mut copied = room;
    shares.fill(&mut copied);
    copied.settle();
    copied
}

/// The same reply once more, in room that was reserved.
pub fn twin(reply: &Reply, room: Rooms) -> Reply
    requires settled { IsSettled reply.now }
    requires room { HasRoom reply.now room }
    ensures { result ≡ reply.now }
{
    match reply {
        Reply::Accepted { at, index } => Reply::Accepted {
            at: *at,
            index: *index,
        },
        Reply::Paced { at, sent } => Reply::Paced {
            at: *at,
            sent: twin_records(sent, room.sent),
        },
        Reply::Credited {
            at,
            judged,
            signal,
            m,
            acked,
            rates,
            shares,
        } => Reply::Credited {
            at: *at,
            judged: twin_judged(judged, room.received),
            signal: *signal,
            m: *m,
            acked: *acked,
            rates: *rates,
            shares: twin_shares(shares, room.shares),
        },
        Reply::Configured { at, rates, shares } => Reply::Configured {
            at: *at,
            rates: *rates,
            shares: twin_shares(shares, room.shares),
        },
        Reply::Refused { at, cause } => Reply::Refused {
            at: *at,
            cause: *cause,
        },
    }
}
