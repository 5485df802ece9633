//! The course of one pace: the first rule that applies, and what a send does.

ghost use Rattle.std.specs.Prelude.{◌≡◌, ℕ, ◌+◌, ◌≤◌, ◌<◌, ◌^◌, ◌++◌, [], ◌∷◌, List, length, Some};
ghost use Rattle.pace_queues.specs.Waiting.{next};
ghost use Rattle.probe_clusters.specs.Deeds.{Deed, StandsFor, ReachedBy};
ghost use Rattle.pacer.specs.Pace.{rule, after, after_all, paced, is_audio, record_of, padding_of, index_of, unsent};
ghost use Rattle.pacer.specs.Course.{standing, IsFit, HasRoom, IsLowered, MayLower, probes_of, probe_by};

use crate::sent::{Kind, Sent, SentList};
use gcc_units::{Class, Level, MOST_PACKETS, MOST_SENDS, Moment, PADDING_PACKET};
use pace_budget::Bucket;
use pace_queues::{Queues, Ticket};
use probe_clusters::Clusters;

/// What holds all through a pace.
#[derive(Clone, Copy)]
pub struct Terms {
    /// In microseconds.
    pub moment: Moment,
    /// Whether audio is held back by the media level.
    pub paced_audio: bool,
    /// How low media may push the padding level.
    pub floor: Level,
}

/// What a pace changes.
#[derive(Drop)]
pub struct Course {
    pub queues: Queues,
    /// The level of paced media.
    pub media: Bucket,
    /// The level of padding.
    pub padding: Bucket,
    /// Whether a packet of kind Media was sent before.
    pub began: bool,
}

/// Whether packets of the class are audio.
pub fn is_audio(class: Class) -> bool
    ensures { result ≡ is_audio class }
{
    match class {
        Class::Audio => true,
        Class::Retransmission | Class::Video | Class::Fec => false,
    }
}

// A packet that waits, sent as a kind under a number.
fn record_of(number: u64, kind: Kind, ticket: Ticket) -> Sent
    ensures { result ≡ record_of number kind ticket }
{
    Sent {
        number,
        index: Some(ticket.index),
        kind,
        size: ticket.size,
    }
}

// A padding packet, sent as a kind under a number.
fn padding_of(number: u64, kind: Kind) -> Sent
    ensures { result ≡ padding_of number kind }
{
    Sent {
        number,
        index: None,
        kind,
        size: PADDING_PACKET,
    }
}

// What is sent next, if something is: the first rule that applies.
fn choose(course: &Course, clusters: &Clusters, number: u64, terms: Terms) -> Option<Sent>
    ensures { result ≡ rule terms (standing course.now clusters.now.items number) }
{
    let head = course.queues.head();
    if let Some(ticket) = head {
        if is_audio(ticket.class) && !terms.paced_audio {
            return Some(record_of(number, Kind::Audio, ticket));
        }
    }
    if let Some(id) = clusters.due(terms.moment) {
        return Some(match head {
            Some(ticket) => record_of(number, Kind::Probe(id), ticket),
            None => padding_of(number, Kind::Probe(id)),
        });
    }
    match head {
        Some(ticket) if course.media.is_open() => Some(record_of(number, Kind::Media, ticket)),
        None if course.padding.is_open() && course.began => {
            Some(padding_of(number, Kind::Padding))
        }
        _ => None,
    }
}

// The packet of the send waits no more.
fn take_out(queues: &mut Queues, sent: Sent)
    requires { sent.index ≡ index_of (next queues.old) }
    ensures { queues.new ≡ unsent (sent ∷ []) queues.old }
{
    if sent.index.is_some() {
        queues.pop();
    }
}

// What a send does to what waits, to the levels and to the clusters.
fn carry_out(course: &mut Course, clusters: &mut Clusters, number: u64, terms: Terms, sent: Sent)
    requires ruled { rule terms (standing course.old clusters.old.items number) ≡ Some sent }
    requires fit { IsFit terms course.old }
    requires room { HasRoom 1 clusters.old.items }
    requires few { MayLower 1 course.old.media }
    ensures after { standing course.new clusters.new.items (number + 1) ≡ after terms (standing course.old clusters.old.items number) sent }
    ensures fit { IsFit terms course.new }
    ensures spare { clusters.new.spare ≡ clusters.old.spare }
    ensures stands { (ds : List Deed) → StandsFor clusters.old.items ds → StandsFor clusters.new.items (ds ++ probe_by terms.moment sent) }
    ensures reached { (sends : ℕ) → ReachedBy sends MOST_PACKETS clusters.old.items → ReachedBy (sends + 1) MOST_PACKETS clusters.new.items }
    ensures lowered { (sends : ℕ) → IsLowered sends course.old.media → IsLowered (sends + 1) course.new.media }
{
    take_out(&mut course.queues, sent);
    match sent.kind {
        Kind::Audio => {}
        Kind::Media => {
            course.media.spend(sent.size);
            course.padding.spend_soft(sent.size, terms.floor);
            course.began = true;
        }
        Kind::Probe(_) => {
            course.media.spend_probe(sent.size);
            clusters.sent(sent.size, terms.moment);
        }
        Kind::Padding => course.padding.spend(sent.size),
    }
}

/// Sends what the rules give, numbered from `first`.
pub fn run(
    course: &mut Course,
    clusters: &mut Clusters,
    first: u64,
    terms: Terms,
    out: &mut SentList,
)
    requires fit { IsFit terms course.old }
    requires clusters { HasRoom MOST_SENDS clusters.old.items }
    requires few { MayLower MOST_SENDS course.old.media }
    requires empty { out.old.items ≡ [] }
    requires room { MOST_SENDS ≤ out.old.spare }
    requires fits { first + MOST_SENDS < 2 ^ 64 }
    ensures records { out.new.items ≡ paced MOST_SENDS terms (standing course.old clusters.old.items first) }
    ensures after { standing course.new clusters.new.items (first + length out.new.items)
        ≡ after_all terms (standing course.old clusters.old.items first) out.new.items }
    ensures queue { course.new.queues ≡ unsent out.new.items course.old.queues }
    ensures spare { clusters.new.spare ≡ clusters.old.spare }
    ensures stands { (ds : List Deed) → StandsFor clusters.old.items ds → StandsFor clusters.new.items (ds ++ probes_of terms.moment out.new.items) }
    ensures lowered { (sends : ℕ) → IsLowered sends course.old.media → IsLowered (sends + length out.new.items) course.new.media }
{
    for number in first..first + u64::from(MOST_SENDS) {
        let Some(sent) = choose(course, clusters, number, terms) else {
            return;
        };
        carry_out(course, clusters, number, terms, sent);
        out.put(sent);
    }
}
