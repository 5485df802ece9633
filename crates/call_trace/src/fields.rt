//! The fields of a line, and what stands in them.

ghost use Rattle.std.specs.Prelude.{◌≡◌, ◌<◌, ◌≤◌, length};
ghost use Rattle.std.specs.List.{position_or_len};
ghost use Rattle.call_trace.specs.Fields.{is_space, is_byte, field, behind, value_after, number_of};
ghost use Rattle.call_trace.specs.Steps.{Gives};
ghost use Rattle.call_trace.specs.Reading.{actor_at, moment_at, class_at, hex_at};

use crate::fault::{Bad, NO_ACTOR, NO_HEX, NO_MOMENT, NO_VERB};
use gcc_units::{Bytes, Class, MOST_CHECK_BYTES, Sequence};
use hex::FromHexError;
use memchr::memchr;
use std::alloc::Global;

/// The place of a byte, or the length where it is not there.
pub fn find(bytes: &[u8], byte: u8) -> usize
    ensures place { result ≡ position_or_len (is_byte byte) bytes.now }
    ensures within { result ≤ length bytes.now }
{
    match memchr(byte, bytes) {
        Some(place) => place,
        None => bytes.len(),
    }
}

/// The first field, and all that stands behind the space after it.
pub fn cut(bytes: &[u8]) -> (&[u8], &[u8])
    ensures first { result.0.now ≡ field bytes.now }
    ensures rest { result.1.now ≡ behind bytes.now }
    ensures shorter { length result.1.now ≤ length bytes.now }
{
    let space = find(bytes, b' ');
    if space < bytes.len() {
        (&bytes[..space], &bytes[space + 1..])
    } else {
        (bytes, &[])
    }
}

/// The value of decimal digits; `None` where a byte is none, or the value is above 2^64 - 1.
fn value_of(digits: &[u8]) -> Option<u64>
    ensures { result ≡ value_after 0 digits.now }
{
    let mut value: u64 = 0;
    for digit in digits {
        if !digit.is_ascii_digit() {
            return None;
        }
        value = value
            .checked_mul(10)?
            .checked_add(u64::from(*digit - b'0'))?;
    }
    Some(value)
}

/// A number in decimal, without sign and without a leading zero.
pub fn number(text: &[u8]) -> Option<u64>
    ensures { result ≡ number_of text.now }
{
    match text {
        [] | [b'0', _, ..] => None,
        _ => value_of(text),
    }
}

/// The actor whose number stands there.
pub fn actor(actors: u32, text: &[u8]) -> Result<u32, Bad>
    ensures { Gives result (actor_at actors text.now) }
{
    match number(text) {
        Some(n) if n < u64::from(actors) => Ok(n as u32),
        _ => Err(Bad::Reason(NO_ACTOR)),
    }
}

/// The moment that stands there.
pub fn moment(text: &[u8]) -> Result<u64, Bad>
    ensures { Gives result (moment_at text.now) }
{
    match number(text) {
        Some(at) => Ok(at),
        None => Err(Bad::Reason(NO_MOMENT)),
    }
}

/// The class whose letter stands there.
pub fn class(text: &[u8]) -> Result<Class, Bad>
    ensures { Gives result (class_at text.now) }
{
    match text {
        [b'a'] => Ok(Class::Audio),
        [b'r'] => Ok(Class::Retransmission),
        [b'v'] => Ok(Class::Video),
        [b'f'] => Ok(Class::Fec),
        _ => Err(Bad::Reason(NO_VERB)),
    }
}

/// The bytes of one or more pairs of hex digits, in either case.
pub fn hex_bytes(alloc: Global, text: &[u8]) -> Result<Bytes, Bad>
    requires { length text.now ≤ MOST_CHECK_BYTES }
    ensures { Gives result (hex_at text.now) }
{
    if text.is_empty() {
        return Err(Bad::Reason(NO_HEX));
    }
    match hex::decode(alloc, text) {
        Ok(bytes) => Ok(Sequence::from_vec(bytes)),
        Err(FromHexError::OutOfMemory) => Err(Bad::Memory),
        Err(_) => Err(Bad::Reason(NO_HEX)),
    }
}
