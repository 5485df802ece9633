//! Serving all lines of a trace on a shared sender with one seat.

ghost use Rattle.std.specs.Prelude.{◌≡◌, ◌≢◌, ℕ, ◌≤◌, ◌<◌, List, take, [], ◌∷◌, length, IfOk, IfErr, OnOk};
ghost use Rattle.turn_lock.specs.Seats.{TableId, new_seat};
ghost use Rattle.call_trace.specs.declared.trace.Line.{Line as LineIs};
ghost use Rattle.send_core.specs.Reply.{IsLegal};
ghost use Rattle.resending.specs.Serving.{nothing, serving, served_line};
ghost use Rattle.resending.specs.Alone.{IsSeated, IsAlone, IsCause};
ghost use Rattle.resending.specs.Standing.{Stands};

use crate::nack_line::NackLineList;
use crate::server::Server;
use crate::stop::Stop;
use call_trace::LineList;
use gcc_units::NoMemory;
use nack_rtx::{Resender, RtxSettings};
use reply_text::SeenList;
use send_core::{Sender, Settings};
use shared_sender::{SenderSeat, SenderSeats, Shared};
use std::alloc::Global;
use std::sync::Wait;

/// The most lines that are served where lost packets are sent again (this project's own rule).
pub const MOST_RESEND_LINES: u32 = 100_000;

/// The most resends of one packet (this project's own rule).
pub const MOST_REPEATS: u32 = 8;

/// What serving gives.
#[derive(Drop)]
pub struct Served {
    /// The sender, whose journal has all calls.
    pub sender: Sender,
    pub nacks: NackLineList,
    pub glances: SeenList,
}

/// One who has served nothing yet.
fn ready(alloc: Global, settings: RtxSettings, seat: SenderSeat) -> Result<Server, NoMemory>
    requires payload { settings.payload < 128 }
    requires seen { seat.seen ≡ [] }
    ensures seat { IfOk result (λ server. server.seat ≡ seat) }
    ensures stands { IfOk result (λ server. Stands settings nothing server) }
{
    let resender = Resender::new(alloc, settings)?;
    Ok(Server {
        seat,
        resender,
        extension_id: Settings::start().extension_id,
        nacks: NackLineList::new(alloc),
        glances: SeenList::new(alloc),
    })
}

/// Serves all lines in their order.
fn serve_lines<R: Wait>(
    rt: &R,
    alloc: Global,
    shared: &Shared,
    lines: LineList,
    server: &mut Server,
) -> Result<(), Stop>
    requires few { length lines.items ≤ MOST_RESEND_LINES }
    requires seated { IsSeated shared.now.of server.old.seat }
    ensures seated { IsSeated shared.now.of server.new.seat }
    ensures served { OnOk result ((s : RtxSettings) → Stands s nothing server.old → Stands s (serving s lines.items) server.new) }
    ensures stopped { IfErr result (λ why. (s : RtxSettings) → Stands s nothing server.old → IsAlone server.new.seat
        → (front : List LineIs) × (length front ≤ length lines.items) × IsCause why (length (serving s front).history)) }
{
    for line in lines.into_vec() {
        server.serve(rt, alloc, shared, line)?;
    }
    Ok(())
}

/// The one reason for which serving stops where no one else calls.
fn only_memory(why: Stop) -> NoMemory
    requires { why ≡ Stop.NoMemory }
{
    match why {
        Stop::NoMemory => NoMemory,
        Stop::Full | Stop::Unread => unreachable!(),
    }
}

/// Serves the lines of a trace of one actor on a shared sender with one seat, and answers NACKs
/// between them.
///
/// A report whose bytes are a NACK is one, and any other is a call. After each pace the packets that
/// left are kept, but for padding. The packets that are sent again for a NACK are handed in at its
/// moment, as retransmissions; one that is refused counts as sent again.
pub fn serve<R: Wait>(
    rt: &R,
    alloc: Global,
    settings: RtxSettings,
    lines: LineList,
) -> Result<Served, NoMemory>
    requires few { length lines.items ≤ MOST_RESEND_LINES }
    requires payload { settings.payload < 128 }
    requires repeats { settings.repeats ≤ MOST_REPEATS }
    requires ssrcs { settings.media ≢ settings.rtx }
    ensures legal { IfOk result (λ served. IsLegal served.sender) }
    ensures history { IfOk result (λ served. served.sender ≡ (serving settings lines.items).history) }
    ensures nacks { IfOk result (λ served. served.nacks.items ≡ (serving settings lines.items).nacks) }
    ensures glances { IfOk result (λ served. served.glances.items ≡ (serving settings lines.items).glances) }
{
    let sender = Sender::new(alloc)?;
    let Ok((shared, mut seats)) = Shared::new(alloc, sender, 1) else {
        return Err(NoMemory);
    };
    let Some(seat) = seats.pop() else {
        unreachable!();
    };
    let mut server = ready(alloc, settings, seat)?;
    let ended = serve_lines(rt, alloc, &shared, lines, &mut server);
    let Server {
        seat,
        nacks,
        glances,
        ..
    } = server;
    let Ok(()) = seats.push(seat) else {
        return Err(NoMemory);
    };
    let Ok(sender) = shared.close(alloc, seats) else {
        return Err(NoMemory);
    };
    match ended {
        Ok(()) => Ok(Served {
            sender,
            nacks,
            glances,
        }),
        // No one else called, so each packet was read, and there are at most nine entries a line.
        Err(why) => Err(only_memory(why)),
    }
}
