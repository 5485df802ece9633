//! The words of a run in a closed loop.

ghost use Rattle.std.specs.Prelude.{◌≡◌, ◌<◌, ◌≤◌, true, IfOk, IfSome, All, length};
ghost use Rattle.live_loop.specs.Plans.{IsPlan, IsStep};
ghost use Rattle.steered_sender.specs.Standing.{IsControl};

use call_trace::number;
use gcc_units::NoMemory;
use live_loop::{
    ALL_PACKETS, GREATEST_LINE_RATE, LEAST_LINE_RATE, MOST_SECONDS, MOST_STEPS, MOST_WAIT, Plan,
    START, Step,
};
use std::alloc::Global;
use steered_sender::Control;

/// A run that is asked for.
#[derive(Drop)]
pub struct Asked {
    pub plan: Plan,
    /// Whether the samples are printed too.
    pub trace: bool,
}

/// The options that were read so far.
#[derive(Drop)]
struct Options {
    rate: Option<u64>,
    queue: Option<u64>,
    delay: Option<u64>,
    seconds: Option<u64>,
    steps: Vec<Step>,
    loss: Option<u64>,
    jitter: Option<u64>,
    seed: Option<u64>,
    senders: Option<u64>,
    control: Option<u64>,
    trace: bool,
}

/// What the next word is the value of.
#[derive(Clone, Copy, PartialEq, Eq)]
enum Name {
    Rate,
    Queue,
    Delay,
    Seconds,
    Step,
    Loss,
    Jitter,
    Seed,
    Senders,
    Control,
}

/// The names of the options that have a value.
const NAMES: [(&[u8], Name); 10] = [
    (b"--rate", Name::Rate),
    (b"--queue", Name::Queue),
    (b"--delay", Name::Delay),
    (b"--seconds", Name::Seconds),
    (b"--step", Name::Step),
    (b"--loss", Name::Loss),
    (b"--jitter", Name::Jitter),
    (b"--seed", Name::Seed),
    (b"--senders", Name::Senders),
    (b"--control", Name::Control),
];

/// The option of this name.
fn name_of(word: &[u8]) -> Option<Name> {
    for (name, option) in &NAMES {
        if *name == word {
            return Some(*option);
        }
    }
    None
}

/// The value, where it is from `least` up to `most`.
fn in_range(value: u64, least: u64, most: u64) -> Option<u64>
    ensures least { IfSome result (λ n. least ≤ n) }
    ensures most { IfSome result (λ n. n ≤ most) }
{
    if value < least || value > most {
        return None;
    }
    Some(value)
}

/// Fills a place that was empty.
fn fill(place: &mut Option<u64>, value: Option<u64>) -> Option<()> {
    if place.is_some() {
        return None;
    }
    *place = Some(value?);
    Some(())
}

/// The place of the first colon.
fn colon_in(word: &[u8]) -> Option<usize>
    ensures { IfSome result (λ k. k < length word.now) }
{
    for k in 0..word.len() {
        if word[k] == b':' {
            return Some(k);
        }
    }
    None
}

/// The step that a word spells, as `AT:RATE`.
fn step_of(word: &[u8]) -> Option<Step> {
    let colon = colon_in(word)?;
    let at = in_range(number(&word[..colon])?, 1, u64::from(MOST_SECONDS))?;
    let rate = in_range(
        number(&word[colon + 1..])?,
        LEAST_LINE_RATE,
        GREATEST_LINE_RATE,
    )?;
    Some(Step {
        at: at as u32,
        rate,
    })
}

/// The first control as a number.
const GRADIENT: u64 = 0;

/// The level control as a number.
const LEVEL: u64 = 1;

/// The number of the control that a word names.
fn control_number(word: &[u8]) -> Option<u64> {
    if word == b"gradient".as_slice() {
        return Some(GRADIENT);
    }
    if word == b"level".as_slice() {
        return Some(LEVEL);
    }
    None
}

/// The control with a number.
fn control_of(number: u64) -> Control
    ensures { IsControl result }
{
    if number == LEVEL {
        Control::Level { start: START }
    } else {
        Control::Gradient
    }
}

/// The value that a word gives an option that has a number.
fn value_of(name: Name, word: &[u8]) -> Option<u64> {
    match name {
        Name::Control => control_number(word),
        _ => number(word),
    }
}

/// Whether a line may have the rates of all these steps.
fn are_in_range(steps: &[Step]) -> bool
    ensures { result ≡ true → All IsStep steps.now }
{
    for step in steps {
        if step.rate < LEAST_LINE_RATE || step.rate > GREATEST_LINE_RATE {
            return false;
        }
    }
    true
}

impl Options {
    ghost use Rattle.std.specs.Prelude.{IfSome};
    ghost use Rattle.live_loop.specs.Plans.{IsPlan};

    fn new(alloc: Global) -> Options {
        Options {
            rate: None,
            queue: None,
            delay: None,
            seconds: None,
            steps: Vec::new(alloc),
            loss: None,
            jitter: None,
            seed: None,
            senders: None,
            control: None,
            trace: false,
        }
    }

    /// Puts a step behind those before it; `None` where it comes no later, or where there are too many.
    fn push_step(&mut self, step: Step) -> Result<Option<()>, NoMemory> {
        if self.steps.len() >= MOST_STEPS as usize {
            return Ok(None);
        }
        if let Some(last) = self.steps.last()
            && last.at >= step.at
        {
            return Ok(None);
        }
        match self.steps.push(step) {
            Ok(()) => Ok(Some(())),
            Err(_) => Err(NoMemory),
        }
    }

    /// The place of an option's number; `None` for a step.
    fn place(&mut self, name: Name) -> Option<&mut Option<u64>> {
        match name {
            Name::Rate => Some(&mut self.rate),
            Name::Queue => Some(&mut self.queue),
            Name::Delay => Some(&mut self.delay),
            Name::Seconds => Some(&mut self.seconds),
            Name::Step => None,
            Name::Loss => Some(&mut self.loss),
            Name::Jitter => Some(&mut self.jitter),
            Name::Seed => Some(&mut self.seed),
            Name::Senders => Some(&mut self.senders),
            Name::Control => Some(&mut self.control),
        }
    }

    /// Takes the value of an option; `None` where it has none, or had one before.
    fn take(&mut self, name: Name, word: &[u8]) -> Result<Option<()>, NoMemory> {
        if name == Name::Step {
            return match step_of(word) {
                Some(step) => self.push_step(step),
                None => Ok(None),
            };
        }
        match self.place(name) {
            Some(place) => Ok(fill(place, value_of(name, word))),
            None => Ok(None),
        }
    }

    /// Takes one more word: a name, or the value of the name before it. Answers the name whose value comes next;
    /// `None` where the word is neither.
    fn take_word(
        &mut self,
        name: Option<Name>,
        word: &[u8],
    ) -> Result<Option<Option<Name>>, NoMemory> {
        if let Some(name) = name {
            return match self.take(name, word)? {
                Some(()) => Ok(Some(None)),
                None => Ok(None),
            };
        }
        if word == b"--trace".as_slice() && !self.trace {
            self.trace = true;
            return Ok(Some(None));
        }
        match name_of(word) {
            Some(name) => Ok(Some(Some(name))),
            None => Ok(None),
        }
    }

    /// What they ask for, where each needed one is there and each is in its range.
    fn asked(self) -> Option<Asked>
        ensures { IfSome result (λ a. IsPlan a.plan) }
    {
        if !are_in_range(self.steps.as_slice()) {
            return None;
        }
        let senders = in_range(self.senders.unwrap_or(1), 1, 2)?;
        let rate = in_range(self.rate?, LEAST_LINE_RATE, GREATEST_LINE_RATE)?;
        let queue = in_range(self.queue?, 0, MOST_WAIT)?;
        let delay = in_range(self.delay?, 0, MOST_WAIT)?;
        let seconds = in_range(self.seconds?, 1, u64::from(MOST_SECONDS))?;
        let loss = in_range(self.loss.unwrap_or(0), 0, ALL_PACKETS)?;
        let jitter = in_range(self.jitter.unwrap_or(0), 0, MOST_WAIT)?;
        let plan = Plan {
            rate,
            queue,
            delay,
            seconds: seconds as u32,
            steps: self.steps,
            loss,
            jitter,
            seed: self.seed.unwrap_or(1),
            two: senders == 2,
            control: control_of(self.control.unwrap_or(GRADIENT)),
        };
        Some(Asked {
            plan,
            trace: self.trace,
        })
    }
}

/// The run that words behind `loop` ask for, if they ask for one. Rate, queue, delay and seconds are to be given;
/// each option but a step stands once.
pub fn loop_asked(alloc: Global, words: &[Vec<u8>]) -> Result<Option<Asked>, NoMemory>
    ensures { IfOk result (λ o. IfSome o (λ a. IsPlan a.plan)) }
{
    let mut options = Options::new(alloc);
    let mut name: Option<Name> = None;
    for word in words {
        match options.take_word(name, word.as_slice())? {
            Some(next) => name = next,
            None => return Ok(None),
        }
    }
    if name.is_some() {
        return Ok(None);
    }
    Ok(options.asked())
}
