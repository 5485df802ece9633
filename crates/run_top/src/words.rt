//! The words of a command line, and what they ask for.

ghost use Rattle.std.specs.Prelude.{◌≡◌, IfSome};
ghost use Rattle.link_path.specs.KeptLink.{IsLink};
ghost use Rattle.run_top.specs.Words.{is_text, alone, make_at, demo_at, settings_in, loop_at, apart, rtx_in, resend_at, command_of, IsAllowed, IsWithin};

use crate::options::{Given, Name, number_for, read_options, within};
use gcc_units::{Bytes, GREATEST_RATE, LEAST_RATE, MOST_ACTORS, MOST_LINES, Sequence};
use link_loop::MOST_MILLIS;
use link_path::{GREATEST_QUEUE, LEAST_QUEUE, LONGEST_DELAY, LinkSettings};
use nack_rtx::RtxSettings;
use resending::MOST_REPEATS;

/// The greatest SSRC (RFC 3550, section 5.1).
pub const GREATEST_SSRC: u64 = 4_294_967_295;

/// The greatest payload type (RFC 3550, section 5.1).
pub const GREATEST_PAYLOAD: u64 = 127;

/// The words of a command line, without the program's name.
pub type WordList = Sequence<Bytes>;

/// What the words ask for.
#[derive(Clone, Copy, PartialEq, Eq, Debug)]
pub enum Command {
    /// `replay`
    Replay,
    /// `race`
    Race,
    /// `check`
    Check,
    /// `compare`
    Compare,
    /// `make` with its three options
    Make { seed: u64, calls: u32, actors: u32 },
    /// `demo` with its two options
    Demo { seed: u64, calls: u32 },
    /// `loop` with its four options, three of them the link's settings
    Loop { settings: LinkSettings, millis: u32 },
    /// `resend` with its four options
    Resend { settings: RtxSettings },
}

fn is_word(word: &Bytes, text: &[u8]) -> bool
    ensures { result ≡ is_text word.now text.now }
{
    word.as_slice() == text
}

/// The command, where no words stand behind it.
fn alone(command: Command, rest: &[Bytes]) -> Option<Command>
    ensures asked { result ≡ alone command rest.now }
    ensures same { IfSome result (λ c. c ≡ command) }
{
    match rest {
        [] => Some(command),
        [_, ..] => None,
    }
}

#[tactic(auto, unfolding(crate::specs::Words::make_at))]
fn make(words: &[Bytes]) -> Option<Command>
    ensures asked { result ≡ make_at words.now }
    ensures within { IfSome result IsWithin }
{
    let options = read_options::<3>(words)?;
    let seed = number_for(&options, Name::Seed)?;
    let calls = within(1, u64::from(MOST_LINES), number_for(&options, Name::Calls)?)?;
    let actors = within(
        1,
        u64::from(MOST_ACTORS),
        number_for(&options, Name::Actors)?,
    )?;
    Some(Command::Make {
        seed,
        calls: calls as u32,
        actors: actors as u32,
    })
}

#[tactic(auto, unfolding(crate::specs::Words::demo_at))]
fn demo(words: &[Bytes]) -> Option<Command>
    ensures asked { result ≡ demo_at words.now }
    ensures within { IfSome result IsWithin }
{
    let options = read_options::<2>(words)?;
    let seed = number_for(&options, Name::Seed)?;
    let calls = within(1, u64::from(MOST_LINES), number_for(&options, Name::Calls)?)?;
    Some(Command::Demo {
        seed,
        calls: calls as u32,
    })
}

/// The settings of a link, by three options.
fn settings(options: &[Given]) -> Option<LinkSettings>
    ensures asked { result ≡ settings_in options.now }
    ensures within { IfSome result IsLink }
{
    let rate = within(LEAST_RATE, GREATEST_RATE, number_for(options, Name::Rate)?)?;
    let queue = within(
        LEAST_QUEUE,
        GREATEST_QUEUE,
        number_for(options, Name::Queue)?,
    )?;
    let delay = within(0, LONGEST_DELAY, number_for(options, Name::Delay)?)?;
    Some(LinkSettings { rate, queue, delay })
}

#[tactic(auto, unfolding(crate::specs::Words::loop_at))]
fn closed_loop(words: &[Bytes]) -> Option<Command>
    ensures asked { result ≡ loop_at words.now }
    ensures within { IfSome result IsWithin }
{
    let options = read_options::<4>(words)?;
    let settings = settings(&options)?;
    let millis = within(
        1,
        u64::from(MOST_MILLIS),
        number_for(&options, Name::Millis)?,
    )?;
    Some(Command::Loop {
        settings,
        millis: millis as u32,
    })
}

/// The settings of resends, where the packets that are sent again have an SSRC of their own.
fn apart(settings: RtxSettings) -> Option<RtxSettings>
    ensures { result ≡ apart settings }
{
    if settings.media == settings.rtx {
        None
    } else {
        Some(settings)
    }
}

/// The settings of resends, by four options.
#[tactic(auto, unfolding(crate::specs::Words::rtx_in))]
fn rtx_settings(options: &[Given]) -> Option<RtxSettings>
    ensures asked { result ≡ rtx_in options.now }
    ensures within { IfSome result IsAllowed }
{
    let media = within(0, GREATEST_SSRC, number_for(options, Name::Media)?)?;
    let rtx = within(0, GREATEST_SSRC, number_for(options, Name::Rtx)?)?;
    let payload = within(0, GREATEST_PAYLOAD, number_for(options, Name::Payload)?)?;
    let repeats = within(
        1,
        u64::from(MOST_REPEATS),
        number_for(options, Name::Repeats)?,
    )?;
    apart(RtxSettings {
        media: media as u32,
        rtx: rtx as u32,
        payload: payload as u8,
        repeats: repeats as u32,
    })
}

#[tactic(auto, unfolding(crate::specs::Words::resend_at))]
fn resend(words: &[Bytes]) -> Option<Command>
    ensures asked { result ≡ resend_at words.now }
    ensures within { IfSome result IsWithin }
{
    let options = read_options::<4>(words)?;
    let settings = rtx_settings(&options)?;
    Some(Command::Resend { settings })
}

/// What the words ask for, where they are accepted.
#[tactic(auto, unfolding(crate::specs::Words::command_of))]
pub fn read_words(words: &WordList) -> Option<Command>
    ensures asked { result ≡ command_of words.now.items }
    ensures within { IfSome result IsWithin }
{
    match words.as_slice() {
        [] => None,
        [word, rest @ ..] => {
            if is_word(word, b"replay") {
                alone(Command::Replay, rest)
            } else if is_word(word, b"race") {
                alone(Command::Race, rest)
            } else if is_word(word, b"check") {
                alone(Command::Check, rest)
            } else if is_word(word, b"compare") {
                alone(Command::Compare, rest)
            } else if is_word(word, b"make") {
                make(rest)
            } else if is_word(word, b"demo") {
                demo(rest)
            } else if is_word(word, b"loop") {
                closed_loop(rest)
            } else if is_word(word, b"resend") {
                resend(rest)
            } else {
                None
            }
        }
    }
}
