//! The estimates that the replies of a journal tell.

ghost use Rattle.std.specs.Prelude.{◌≡◌};
ghost use Rattle.estimator.specs.Est.{estimate};
ghost use Rattle.send_core.specs.Estimates.{est};
ghost use Rattle.send_core.specs.Reply.{IsLegal};
ghost use Rattle.run_top.specs.Told.{rates_in, told_after};

use gcc_units::Rate;
use send_core::{Journal, Rates, Reply, START_RATE};

/// The rates that a reply tells, if it tells some.
fn rates_in(reply: &Reply) -> Option<Rates>
    ensures { result ≡ rates_in reply.now }
{
    match reply {
        Reply::Credited { rates, .. } | Reply::Configured { rates, .. } => Some(*rates),
        Reply::Accepted { .. } | Reply::Paced { .. } | Reply::Refused { .. } => None,
    }
}

/// The estimates after a reply: those that it tells, or else those before it.
fn told_after(before: (Rate, Rate), reply: &Reply) -> (Rate, Rate)
    ensures { result ≡ told_after before (rates_in reply.now) }
{
    match rates_in(reply) {
        Some(rates) => (rates.delay, rates.loss),
        None => before,
    }
}

/// The estimates of delay control and of loss control after all entries: those that the last reply
/// with rates tells.
pub fn estimates(journal: &Journal) -> (Rate, Rate)
    requires { IsLegal journal.now.items }
    ensures delay { result.0 ≡ (estimate (est journal.now.items)).delay }
    ensures loss { result.1 ≡ (estimate (est journal.now.items)).loss }
{
    let mut told = (START_RATE, START_RATE);
    for k in 0..journal.len() {
        let Some(entry) = journal.entry(k) else {
            unreachable!()
        };
        told = told_after(told, &entry.reply);
    }
    told
}
