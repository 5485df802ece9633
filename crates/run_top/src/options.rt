//! The options of a command: a name and a number, as two words or as one with `=`.

ghost use Rattle.std.specs.Prelude.{◌≡◌, None, Some, IfSome, IfNone};
ghost use Rattle.run_top.specs.Words.{name_text, same_name, in_two, in_one, option_of, option_at, options_at, number_for, within, IsFromTo};

use call_trace::number;
use gcc_units::Bytes;

/// The name of an option.
#[derive(Clone, Copy, PartialEq, Eq, Debug)]
pub enum Name {
    /// `--seed`
    Seed,
    /// `--calls`
    Calls,
    /// `--actors`
    Actors,
    /// `--rate`
    Rate,
    /// `--queue`
    Queue,
    /// `--delay`
    Delay,
    /// `--millis`
    Millis,
    /// `--media`
    Media,
    /// `--rtx`
    Rtx,
    /// `--payload`
    Payload,
    /// `--repeats`
    Repeats,
}

/// The names of all options.
const NAMES: [Name; 11] = [
    Name::Seed,
    Name::Calls,
    Name::Actors,
    Name::Rate,
    Name::Queue,
    Name::Delay,
    Name::Millis,
    Name::Media,
    Name::Rtx,
    Name::Payload,
    Name::Repeats,
];

/// An option.
#[derive(Clone, Copy, PartialEq, Eq, Debug)]
pub struct Given {
    pub name: Name,
    pub number: u64,
}

fn name_text(name: Name) -> &'static [u8]
    ensures { result.now ≡ name_text name }
{
    match name {
        Name::Seed => b"--seed",
        Name::Calls => b"--calls",
        Name::Actors => b"--actors",
        Name::Rate => b"--rate",
        Name::Queue => b"--queue",
        Name::Delay => b"--delay",
        Name::Millis => b"--millis",
        Name::Media => b"--media",
        Name::Rtx => b"--rtx",
        Name::Payload => b"--payload",
        Name::Repeats => b"--repeats",
    }
}

/// The option whose number is the next word, and the words behind it.
fn in_two(words: &[Bytes], name: Name) -> Option<(Given, &[Bytes])>
    ensures some { IfSome result (λ p. in_two name words.now ≡ Some (p.0, p.1.now)) }
    ensures none { IfNone result (in_two name words.now ≡ None) }
{
    match words {
        [word, rest @ ..] => {
            let number = number(word.as_slice())?;
            Some((Given { name, number }, rest))
        }
        [] => None,
    }
}

/// The option whose number stands in the same word behind a `=`, and the words behind it.
fn in_one<'a>(word: &Bytes, rest: &'a [Bytes], name: Name) -> Option<(Given, &'a [Bytes])>
    ensures some { IfSome result (λ p. in_one name word.now rest.now ≡ Some (p.0, p.1.now)) }
    ensures none { IfNone result (in_one name word.now rest.now ≡ None) }
{
    let text = word.as_slice().strip_prefix(name_text(name))?;
    let digits = text.strip_prefix(b"=")?;
    let number = number(digits)?;
    Some((Given { name, number }, rest))
}

/// The option of this name that words begin with, and the words behind it.
fn option_of(words: &[Bytes], name: Name) -> Option<(Given, &[Bytes])>
    ensures some { IfSome result (λ p. option_of name words.now ≡ Some (p.0, p.1.now)) }
    ensures none { IfNone result (option_of name words.now ≡ None) }
{
    match words {
        [word, rest @ ..] => {
            if word.as_slice() == name_text(name) {
                in_two(rest, name)
            } else {
                in_one(word, rest, name)
            }
        }
        [] => None,
    }
}

/// The option that words begin with, and the words behind it.
#[tactic(auto, unfolding(crate::specs::Words::option_at))]
fn option(words: &[Bytes]) -> Option<(Given, &[Bytes])>
    ensures some { IfSome result (λ p. option_at words.now ≡ Some (p.0, p.1.now)) }
    ensures none { IfNone result (option_at words.now ≡ None) }
{
    for name in NAMES {
        if let Some(taken) = option_of(words, name) {
            return Some(taken);
        }
    }
    None
}

/// So many options, and nothing behind them.
pub fn read_options<const N: usize>(words: &[Bytes]) -> Option<[Given; N]>
    ensures some { IfSome result (λ options. options_at N words.now ≡ Some options) }
    ensures none { IfNone result (options_at N words.now ≡ None) }
{
    let mut options = [Given {
        name: Name::Seed,
        number: 0,
    }; N];
    let mut rest = words;
    for place in 0..N {
        let (taken, behind) = option(rest)?;
        options[place] = taken;
        rest = behind;
    }
    match rest {
        [] => Some(options),
        [_, ..] => None,
    }
}

/// The number of the option of this name.
pub fn number_for(options: &[Given], name: Name) -> Option<u64>
    ensures { result ≡ number_for name options.now }
{
    for option in options {
        if option.name == name {
            return Some(option.number);
        }
    }
    None
}

/// The number, where it is from the least to the most.
pub fn within(least: u64, most: u64, number: u64) -> Option<u64>
    ensures number { result ≡ within least most number }
    ensures within { IfSome result (λ n. IsFromTo least most n) }
{
    if least <= number && number <= most {
        Some(number)
    } else {
        None
    }
}
