//! What C is told of an outcome.

ghost use Rattle.std.specs.Prelude.{◌≡◌};
ghost use Rattle.capi.specs.Outcomes.{code_in, told_in, popped_code, size_in, index_told, kind_told, cluster_told, info_told, info_in, told_code, heard_code, place_in, share_code, share_in, finding_told, found_code, found_told, probe_code, probe_in, moment_code, moment_in};

use crate::fault::Fault;
use crate::feedback::Heard;
use crate::looking::{NO_TIME, ProbeTold, ResultTold, ShareTold};
use crate::popping::Popped;
use pacer::{Kind, Sent};
use send_core::Cause;
use sent_history::Finding;

/// The index of a packet that is none of the accepted ones, and the cluster of one that is of none.
pub const NO_INDEX: u32 = 0xffff_ffff;

/// What a packet was sent as.
#[repr(C)]
#[derive(Clone, Copy)]
pub struct Info {
    /// Its transport-wide number: the count of packets sent before it.
    pub number: u64,
    /// Its place among the accepted packets; `NO_INDEX` for padding.
    pub index: u32,
    /// 0 audio, 1 media, 2 a probe, 3 padding.
    pub kind: u32,
    /// The cluster of a probe; else `NO_INDEX`.
    pub cluster: u32,
}

fn index_told(index: Option<u32>) -> u32
    ensures { result ≡ index_told index }
{
    match index {
        None => NO_INDEX,
        Some(index) => index,
    }
}

fn kind_told(kind: Kind) -> u32
    ensures { result ≡ kind_told kind }
{
    match kind {
        Kind::Audio => 0,
        Kind::Media => 1,
        Kind::Probe(_) => 2,
        Kind::Padding => 3,
    }
}

fn cluster_told(kind: Kind) -> u32
    ensures { result ≡ cluster_told kind }
{
    match kind {
        Kind::Probe(cluster) => cluster,
        Kind::Audio | Kind::Media | Kind::Padding => NO_INDEX,
    }
}

fn info_told(sent: &Sent) -> Info
    ensures { result ≡ info_told sent.now }
{
    Info {
        number: sent.number,
        index: index_told(sent.index),
        kind: kind_told(sent.kind),
        cluster: cluster_told(sent.kind),
    }
}

/// Writes the index of a packet that was accepted: 0, or the number of the cause.
pub fn tell_index(outcome: Result<u32, Fault>, index: &mut u32) -> i32
    ensures code { result ≡ code_in outcome }
    ensures index { index.new ≡ told_in index.old outcome }
{
    match outcome {
        Ok(accepted) => {
            *index = accepted;
            0
        }
        Err(fault) => fault.code(),
    }
}

/// Writes what a pop gave: 0 for a packet, 1 where nothing may leave, 2 where the room is too
/// small, or the number of the cause.
pub fn tell_popped(outcome: Result<Popped, Fault>, size: &mut usize, info: &mut Info) -> i32
    ensures code { result ≡ popped_code outcome }
    ensures size { size.new ≡ size_in size.old outcome }
    ensures info { info.new ≡ info_in info.old outcome }
{
    match outcome {
        Ok(Popped::Packet(sent, bytes)) => {
            *size = bytes;
            *info = info_told(&sent);
            0
        }
        Ok(Popped::Nothing) => 1,
        Ok(Popped::TooSmall(bytes)) => {
            *size = bytes;
            2
        }
        Err(fault) => fault.code(),
    }
}

fn told_code(stopped: Option<Fault>, refused: Option<Cause>) -> i32
    ensures { result ≡ told_code stopped refused }
{
    match stopped {
        Some(fault) => fault.code(),
        None => match refused {
            Some(cause) => Fault::Refused(cause).code(),
            None => 0,
        },
    }
}

/// The number of what came of a compound packet, and where it is none.
pub fn tell_heard(outcome: Result<Heard, Fault>, place: &mut u32) -> i32
    ensures code { result ≡ heard_code outcome }
    ensures place { place.new ≡ place_in place.old outcome }
{
    match outcome {
        Ok(heard) => told_code(heard.stopped, heard.refused),
        Err(Fault::Compound(from)) => {
            *place = from;
            Fault::Compound(from).code()
        }
        Err(fault) => fault.code(),
    }
}

/// Writes a share: 0, or 1 where there is none, or the number of the cause.
pub fn tell_share(outcome: Result<Option<ShareTold>, Fault>, share: &mut ShareTold) -> i32
    ensures code { result ≡ share_code outcome }
    ensures share { share.new ≡ share_in share.old outcome }
{
    match outcome {
        Ok(Some(told)) => {
            *share = told;
            0
        }
        Ok(None) => 1,
        Err(fault) => fault.code(),
    }
}

fn finding_told(finding: Finding) -> ResultTold
    ensures { result ≡ finding_told finding }
{
    match finding {
        Finding::Credited(credit) => ResultTold {
            number: credit.number,
            sent_at: credit.sent_at,
            arrival: credit.arrival,
            size: credit.size,
            cluster: index_told(credit.cluster),
            received: 1,
        },
        Finding::Missing(number) => ResultTold {
            number,
            sent_at: NO_TIME,
            arrival: 0,
            size: 0,
            cluster: NO_INDEX,
            received: 0,
        },
    }
}

/// Writes what was told of a packet: 0, or 1 where nothing is left.
pub fn tell_found(outcome: Option<Finding>, found: &mut ResultTold) -> i32
    ensures code { result ≡ found_code outcome }
    ensures found { found.new ≡ found_told found.old outcome }
{
    match outcome {
        None => 1,
        Some(finding) => {
            *found = finding_told(finding);
            0
        }
    }
}

/// Writes a probe cluster: 0, or 1 where there is none.
pub fn tell_probe(told: Option<ProbeTold>, probe: &mut ProbeTold) -> i32
    ensures code { result ≡ probe_code told }
    ensures probe { probe.new ≡ probe_in probe.old told }
{
    match told {
        None => 1,
        Some(told) => {
            *probe = told;
            0
        }
    }
}

/// Writes a moment: 0, or 1 where there is none.
pub fn tell_moment(told: Option<u64>, at: &mut u64) -> i32
    ensures code { result ≡ moment_code told }
    ensures at { at.new ≡ moment_in at.old told }
{
    match told {
        None => 1,
        Some(moment) => {
            *at = moment;
            0
        }
    }
}

/// 0, or the number of the cause.
pub fn tell_done(outcome: Result<(), Fault>) -> i32
    ensures { result ≡ code_in outcome }
{
    match outcome {
        Ok(()) => 0,
        Err(fault) => fault.code(),
    }
}
