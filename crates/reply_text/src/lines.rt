//! The lines of a printed history.

ghost use Rattle.std.specs.Prelude.{◌≡◌, ◌++◌, codes, length, IfOk, OnOk};
ghost use Rattle.send_core.specs.History.{entry, sent_by};
ghost use Rattle.send_core.specs.declared.call.Call.{Call};
ghost use Rattle.std.specs.String.{string_bytes};
ghost use Rattle.std.specs.List.{flat_map};
ghost use Rattle.reply_text.specs.Text.{kind_text, index_text, sent_text, signal_text, rate_text, judged_text, rates_text, estimate_text, share_text, shares_text, credit_text, credits_text, wire_number, report_number, cause_text, reply_text, line_of, glance_line};
ghost use Rattle.send_core.specs.declared.call.Reply.TheVariants as reply_kind;

use crate::seen::Seen;
use gcc_units::{Credit, Judged, Moment, NoMemory, Rate, Share, ShareList, Signal};
use pacer::{Kind, Sent, SentList};
use rtp_wire::WireFault;
use send_core::{Cause, Entry, Rates, Reply};
use twcc_report::ReportFault;

/// What a report's reply says of the path.
#[derive(Clone, Copy)]
struct Estimate {
    signal: Signal,
    m: i64,
    acked: Option<Rate>,
    rates: Rates,
}

/// Appends what a packet was sent as.
fn push_kind(text: &mut String, kind: Kind) -> Result<(), NoMemory>
    ensures { OnOk result (string_bytes text.new ≡ string_bytes text.old ++ kind_text kind) }
{
    match kind {
        Kind::Audio => Ok(text.push_str("a")?),
        Kind::Media => Ok(text.push_str("m")?),
        Kind::Probe(id) => Ok(write!(text, "x{id}")?),
        Kind::Padding => Ok(text.push_str("p")?),
    }
}

/// Appends which accepted packet it is, if it is one.
fn push_index(text: &mut String, index: Option<u32>) -> Result<(), NoMemory>
    ensures { OnOk result (string_bytes text.new ≡ string_bytes text.old ++ index_text index) }
{
    match index {
        None => Ok(text.push_str("-")?),
        Some(index) => Ok(write!(text, "{index}")?),
    }
}

/// Appends a sent packet, with a space before it.
fn push_sent(text: &mut String, sent: &Sent) -> Result<(), NoMemory>
    ensures { OnOk result (string_bytes text.new ≡ string_bytes text.old ++ sent_text sent.now) }
{
    let number = sent.number;
    let size = sent.size;
    write!(text, " {number}:")?;
    push_kind(text, sent.kind)?;
    text.push_str(":")?;
    push_index(text, sent.index)?;
    Ok(write!(text, ":{size}")?)
}

/// Appends all sent packets of a pace.
fn push_sents(text: &mut String, records: &[Sent]) -> Result<(), NoMemory>
    ensures { OnOk result (string_bytes text.new ≡ string_bytes text.old ++ flat_map sent_text records.now) }
{
    for record in records {
        push_sent(text, record)?;
    }
    Ok(())
}

/// Appends the word of a signal: `normal`, `over` or `under`. `NoMemory` tells that memory ran out.
pub fn push_signal(text: &mut String, signal: Signal) -> Result<(), NoMemory>
    ensures { OnOk result (string_bytes text.new ≡ string_bytes text.old ++ signal_text signal) }
{
    match signal {
        Signal::Normal => Ok(text.push_str("normal")?),
        Signal::Over => Ok(text.push_str("over")?),
        Signal::Under => Ok(text.push_str("under")?),
    }
}

/// Appends a rate, if there is one.
fn push_rate(text: &mut String, rate: Option<Rate>) -> Result<(), NoMemory>
    ensures { OnOk result (string_bytes text.new ≡ string_bytes text.old ++ rate_text rate) }
{
    match rate {
        None => Ok(text.push_str("-")?),
        Some(rate) => Ok(write!(text, "{rate}")?),
    }
}

/// Appends how the statuses of a report were judged.
fn push_judged(text: &mut String, judged: &Judged) -> Result<(), NoMemory>
    ensures { OnOk result (string_bytes text.new ≡ string_bytes text.old ++ judged_text judged.now) }
{
    let got = judged.received.len();
    let lost = judged.missing;
    let unknown = judged.unknown;
    let repeated = judged.repeated;
    Ok(write!(
        text,
        "got {got} lost {lost} unknown {unknown} repeated {repeated}"
    )?)
}

fn push_rates(text: &mut String, rates: Rates) -> Result<(), NoMemory>
    ensures { OnOk result (string_bytes text.new ≡ string_bytes text.old ++ rates_text rates) }
{
    let delay = rates.delay;
    let loss = rates.loss;
    let target = rates.target;
    let pacing = rates.pacing;
    Ok(write!(text, "rates {delay} {loss} {target} {pacing}")?)
}

fn push_estimate(text: &mut String, estimate: Estimate) -> Result<(), NoMemory>
    ensures { OnOk result (string_bytes text.new ≡ string_bytes text.old ++ estimate_text estimate.signal estimate.m estimate.acked estimate.rates) }
{
    let m = estimate.m;
    text.push_str("signal ")?;
    push_signal(text, estimate.signal)?;
    write!(text, " m {m} acked ")?;
    push_rate(text, estimate.acked)?;
    text.push_str(" ")?;
    push_rates(text, estimate.rates)
}

fn push_share(text: &mut String, share: &Share) -> Result<(), NoMemory>
    ensures { OnOk result (string_bytes text.new ≡ string_bytes text.old ++ share_text share.now) }
{
    let id = share.id;
    let rate = share.rate;
    Ok(write!(text, "{id}:{rate}")?)
}

/// Appends all shares, or that there is none.
fn push_shares(text: &mut String, shares: &[Share]) -> Result<(), NoMemory>
    ensures { OnOk result (string_bytes text.new ≡ string_bytes text.old ++ shares_text shares.now) }
{
    let [first, others @ ..] = shares else {
        return Ok(text.push_str("-")?);
    };
    push_share(text, first)?;
    for share in others {
        text.push_str(",")?;
        push_share(text, share)?;
    }
    Ok(())
}

fn push_credit(text: &mut String, credit: &Credit) -> Result<(), NoMemory>
    ensures { OnOk result (string_bytes text.new ≡ string_bytes text.old ++ credit_text credit.now) }
{
    let number = credit.number;
    let arrival = credit.arrival;
    Ok(write!(text, "{number}@{arrival}")?)
}

/// Appends all credits in their order, or that there is none.
fn push_credits(text: &mut String, credits: &[Credit]) -> Result<(), NoMemory>
    ensures { OnOk result (string_bytes text.new ≡ string_bytes text.old ++ credits_text credits.now) }
{
    let [first, others @ ..] = credits else {
        return Ok(text.push_str("-")?);
    };
    push_credit(text, first)?;
    for credit in others {
        text.push_str(" ")?;
        push_credit(text, credit)?;
    }
    Ok(())
}

/// The number of the check that a packet failed.
fn wire_number(fault: WireFault) -> u8
    ensures { result ≡ wire_number fault }
{
    fault as u8
}

/// The number of the check that a report failed.
fn report_number(report: ReportFault) -> u8
    ensures { result ≡ report_number report }
{
    report as u8
}

/// Appends why a call was refused.
fn push_cause(text: &mut String, cause: Cause) -> Result<(), NoMemory>
    ensures { OnOk result (string_bytes text.new ≡ string_bytes text.old ++ cause_text cause) }
{
    match cause {
        Cause::MomentTooLarge => Ok(text.push_str("moment")?),
        Cause::Wire(fault) => {
            let number = wire_number(fault);
            Ok(write!(text, "wire {number}")?)
        }
        Cause::QueueFull { waiting } => Ok(write!(text, "full {waiting}")?),
        Cause::Report(fault) => {
            let number = report_number(fault);
            Ok(write!(text, "report {number}")?)
        }
        Cause::Config(check) => Ok(write!(text, "config {check}")?),
    }
}

fn push_accepted(text: &mut String, at: Moment, index: u32) -> Result<(), NoMemory>
    ensures { OnOk result (string_bytes text.new ≡ string_bytes text.old ++ reply_text (reply_kind.Accepted at index)) }
{
    Ok(write!(text, "accepted {at} {index}")?)
}

fn push_paced(text: &mut String, at: Moment, sent: &SentList) -> Result<(), NoMemory>
    ensures { OnOk result (string_bytes text.new ≡ string_bytes text.old ++ reply_text (reply_kind.Paced at sent.now)) }
{
    let count = sent.len();
    write!(text, "paced {at} {count}")?;
    push_sents(text, sent.as_slice())
}

fn push_credited(
    text: &mut String,
    at: Moment,
    judged: &Judged,
    estimate: Estimate,
    shares: &ShareList,
) -> Result<(), NoMemory>
    ensures { OnOk result (string_bytes text.new ≡ string_bytes text.old ++ reply_text (reply_kind.Credited at judged.now estimate.signal estimate.m estimate.acked estimate.rates shares.now)) }
{
    write!(text, "credited {at} ")?;
    push_judged(text, judged)?;
    text.push_str(" ")?;
    push_estimate(text, estimate)?;
    text.push_str(" shares ")?;
    push_shares(text, shares.as_slice())?;
    text.push_str(" credits ")?;
    push_credits(text, judged.received.as_slice())
}

fn push_configured(
    text: &mut String,
    at: Moment,
    rates: Rates,
    shares: &ShareList,
) -> Result<(), NoMemory>
    ensures { OnOk result (string_bytes text.new ≡ string_bytes text.old ++ reply_text (reply_kind.Configured at rates shares.now)) }
{
    write!(text, "configured {at} ")?;
    push_rates(text, rates)?;
    text.push_str(" shares ")?;
    push_shares(text, shares.as_slice())
}

fn push_refused(text: &mut String, at: Moment, cause: Cause) -> Result<(), NoMemory>
    ensures { OnOk result (string_bytes text.new ≡ string_bytes text.old ++ reply_text (reply_kind.Refused at cause)) }
{
    write!(text, "refused {at} ")?;
    push_cause(text, cause)
}

/// Appends a reply, without its caller.
fn push_reply(text: &mut String, reply: &Reply) -> Result<(), NoMemory>
    ensures { OnOk result (string_bytes text.new ≡ string_bytes text.old ++ reply_text reply.now) }
{
    match reply {
        Reply::Accepted { at, index } => push_accepted(text, *at, *index),
        Reply::Paced { at, sent } => push_paced(text, *at, sent),
        Reply::Credited {
            at,
            judged,
            signal,
            m,
            acked,
            rates,
            shares,
        } => {
            let estimate = Estimate {
                signal: *signal,
                m: *m,
                acked: *acked,
                rates: *rates,
            };
            push_credited(text, *at, judged, estimate, shares)
        }
        Reply::Configured { at, rates, shares } => push_configured(text, *at, *rates, shares),
        Reply::Refused { at, cause } => push_refused(text, *at, *cause),
    }
}

/// Appends the line of a caller's reply, with its line feed.
pub fn push_line(text: &mut String, caller: u32, reply: &Reply) -> Result<(), NoMemory>
    ensures { (call : Call) → OnOk result (string_bytes text.new ≡ string_bytes text.old ++ line_of (entry caller call reply.now)) }
{
    write!(text, "{caller} ")?;
    push_reply(text, reply)?;
    Ok(text.push_str("\n")?)
}

/// How many packets were sent with a reply.
pub fn sends_of(reply: &Reply) -> u32
    ensures { result ≡ length (sent_by reply.now) }
{
    match reply {
        Reply::Paced { sent, .. } => sent.len(),
        Reply::Accepted { .. }
        | Reply::Credited { .. }
        | Reply::Configured { .. }
        | Reply::Refused { .. } => 0,
    }
}

/// Appends the line of an actor's glance of this number, with its line feed.
pub fn push_glance(text: &mut String, number: u64, seen: &Seen) -> Result<(), NoMemory>
    ensures { OnOk result (string_bytes text.new ≡ string_bytes text.old ++ glance_line number seen.now) }
{
    let actor = seen.actor;
    let calls = seen.calls;
    let target = seen.target;
    Ok(write!(text, "{actor} glance {number} {calls} {target}\n")?)
}
