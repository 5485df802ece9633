//! Changes of the settings: JSON objects, as `serde_json` reads them.

ghost use Rattle.std.specs.Prelude.{◌≡◌, Some, option_map, option_and_then};
ghost use Rattle.serde_json.specs.Data.{Data};
ghost use Rattle.serde_json.specs.Find.{get, as_array, as_bool, as_object};
ghost use Rattle.serde_json.specs.View.{view, items_view, members_view};
ghost use Rattle.call_trace.specs.Steps.{Gives};
ghost use Rattle.call_trace.specs.Settings.{setting_keys, stream_keys, is_among, all_among, fine_stream, fine_list, fine_keys};
ghost use Rattle.call_trace.specs.ChangeReading.{whole_in, small_in, needed_at, optional_at, stream_at, id_at, list_at, change_at, json_at};

use crate::fault::{Bad, NO_OBJECT, WRONG_KEY, WRONG_VALUE};
use allocator::{Stream, StreamList};
use gcc_units::{IdList, Sequence};
use send_core::Change;
use serde_json::{Map, Value};
use std::alloc::Global;

/// Whether a change may have this key.
fn is_setting(key: &str) -> bool
    ensures { result ≡ is_among setting_keys key.now }
{
    key == "start"
        || key == "min"
        || key == "max"
        || key == "pacing_percent"
        || key == "window"
        || key == "padding_rate"
        || key == "paced_audio"
        || key == "extension_id"
        || key == "probe"
        || key == "streams"
        || key == "removed"
}

/// Whether a stream has this key.
fn is_stream_key(key: &str) -> bool
    ensures { result ≡ is_among stream_keys key.now }
{
    key == "id" || key == "min" || key == "max" || key == "weight" || key == "enforced"
}

/// Whether each key is one of a change.
fn settings_only(map: &Map<String, Value>) -> bool
    ensures { result ≡ all_among setting_keys (members_view map.now.entries) }
{
    for (key, _) in map.iter() {
        if !is_setting(key.as_str()) {
            return false;
        }
    }
    true
}

/// Whether each key is one of a stream.
fn stream_keys_only(map: &Map<String, Value>) -> bool
    ensures { result ≡ all_among stream_keys (members_view map.now.entries) }
{
    for (key, _) in map.iter() {
        if !is_stream_key(key.as_str()) {
            return false;
        }
    }
    true
}

/// Whether the value is no object, or one with the keys of a stream and no other.
fn is_fine_stream(value: &Value) -> bool
    ensures { result ≡ fine_stream (view value.now) }
{
    match value.as_object() {
        Some(map) => {
            value.get("id").is_some()
                && value.get("min").is_some()
                && value.get("max").is_some()
                && value.get("weight").is_some()
                && value.get("enforced").is_some()
                && stream_keys_only(map)
        }
        None => true,
    }
}

/// Whether the value is no list, or one whose objects have the keys of a stream and no other.
fn are_fine_streams(value: Option<&Value>) -> bool
    ensures { result ≡ fine_list (option_and_then as_array (option_map (λ v. view v.now) value.entry)) }
{
    let Some(values) = value.and_then(Value::as_array) else {
        return true;
    };
    for value in values {
        if !is_fine_stream(value) {
            return false;
        }
    }
    true
}

/// Whether the object has no key that it may not have, nor an object in its list of streams.
fn are_fine_keys(value: &Value, map: &Map<String, Value>) -> bool
    requires { as_object (view value.now) ≡ Some (members_view map.now.entries) }
    ensures { result ≡ fine_keys (members_view map.now.entries) }
{
    settings_only(map) && are_fine_streams(value.get("streams"))
}

/// A whole number below 2^64, where it is there.
fn whole(value: Option<&Value>) -> Result<Option<u64>, Bad>
    ensures { Gives result (optional_at whole_in (option_map (λ v. view v.now) value.entry)) }
{
    match value {
        Some(value) => match value.as_u64() {
            Some(number) => Ok(Some(number)),
            None => Err(Bad::Reason(WRONG_VALUE)),
        },
        None => Ok(None),
    }
}

/// A truth value, where it is there.
fn truth(value: Option<&Value>) -> Result<Option<bool>, Bad>
    ensures { Gives result (optional_at as_bool (option_map (λ v. view v.now) value.entry)) }
{
    match value {
        Some(value) => match value.as_bool() {
            Some(truth) => Ok(Some(truth)),
            None => Err(Bad::Reason(WRONG_VALUE)),
        },
        None => Ok(None),
    }
}

/// A whole number below 2^64.
fn needed_whole(value: Option<&Value>) -> Result<u64, Bad>
    ensures { Gives result (needed_at whole_in (option_map (λ v. view v.now) value.entry)) }
{
    match value.and_then(Value::as_u64) {
        Some(number) => Ok(number),
        None => Err(Bad::Reason(WRONG_VALUE)),
    }
}

/// A truth value.
fn needed_truth(value: Option<&Value>) -> Result<bool, Bad>
    ensures { Gives result (needed_at as_bool (option_map (λ v. view v.now) value.entry)) }
{
    match value.and_then(Value::as_bool) {
        Some(truth) => Ok(truth),
        None => Err(Bad::Reason(WRONG_VALUE)),
    }
}

/// A whole number below 2^32.
fn small(value: &Value) -> Result<u32, Bad>
    ensures { Gives result (id_at (view value.now)) }
{
    match value.as_u64() {
        Some(number) if number <= u64::from(u32::MAX) => Ok(number as u32),
        _ => Err(Bad::Reason(WRONG_VALUE)),
    }
}

/// A whole number below 2^32.
fn needed_small(value: Option<&Value>) -> Result<u32, Bad>
    ensures { Gives result (needed_at small_in (option_map (λ v. view v.now) value.entry)) }
{
    match value {
        Some(value) => small(value),
        None => Err(Bad::Reason(WRONG_VALUE)),
    }
}

#[tactic(auto, unfolding(crate::specs::ChangeReading::stream_at))]
fn stream(value: &Value) -> Result<Stream, Bad>
    ensures { Gives result (stream_at (view value.now)) }
{
    let id = needed_small(value.get("id"))?;
    let min = needed_whole(value.get("min"))?;
    let max = needed_whole(value.get("max"))?;
    let weight = needed_small(value.get("weight"))?;
    let enforced = needed_truth(value.get("enforced"))?;
    Ok(Stream {
        id,
        min,
        max,
        weight,
        enforced,
    })
}

/// A list of streams; one that is not there is empty.
fn streams(alloc: Global, value: Option<&Value>) -> Result<StreamList, Bad>
    ensures { Gives result (list_at stream_at (option_map (λ v. view v.now) value.entry)) }
{
    let mut list: StreamList = Sequence::new(alloc);
    let Some(value) = value else {
        return Ok(list);
    };
    let Some(values) = value.as_array() else {
        return Err(Bad::Reason(WRONG_VALUE));
    };
    for value in values {
        let next = match stream(value) {
            Ok(next) => next,
            Err(bad) => return Err(bad),
        };
        if list.push(next).is_err() {
            return Err(Bad::Memory);
        }
    }
    Ok(list)
}

/// A list of ids; one that is not there is empty.
fn ids(alloc: Global, value: Option<&Value>) -> Result<IdList, Bad>
    ensures { Gives result (list_at id_at (option_map (λ v. view v.now) value.entry)) }
{
    let mut list: IdList = Sequence::new(alloc);
    let Some(value) = value else {
        return Ok(list);
    };
    let Some(values) = value.as_array() else {
        return Err(Bad::Reason(WRONG_VALUE));
    };
    for value in values {
        let next = match small(value) {
            Ok(next) => next,
            Err(bad) => return Err(bad),
        };
        if list.push(next).is_err() {
            return Err(Bad::Memory);
        }
    }
    Ok(list)
}

#[tactic(auto, unfolding(crate::specs::ChangeReading::change_at))]
fn change_of(alloc: Global, value: &Value) -> Result<Change, Bad>
    ensures { Gives result (change_at (view value.now)) }
{
    let Some(map) = value.as_object() else {
        return Err(Bad::Reason(NO_OBJECT));
    };
    if !are_fine_keys(value, map) {
        return Err(Bad::Reason(WRONG_KEY));
    }
    let start = whole(value.get("start"))?;
    let min = whole(value.get("min"))?;
    let max = whole(value.get("max"))?;
    let pacing_percent = whole(value.get("pacing_percent"))?;
    let window = whole(value.get("window"))?;
    let padding_rate = whole(value.get("padding_rate"))?;
    let paced_audio = truth(value.get("paced_audio"))?;
    let extension_id = whole(value.get("extension_id"))?;
    let probe = whole(value.get("probe"))?;
    let streams = streams(alloc, value.get("streams"))?;
    let removed = ids(alloc, value.get("removed"))?;
    Ok(Change {
        streams,
        removed,
        start,
        min,
        max,
        pacing_percent,
        window,
        padding_rate,
        paced_audio,
        extension_id,
        probe,
    })
}

/// The change that a JSON text spells.
pub fn change(alloc: Global, text: &[u8]) -> Result<Change, Bad>
    ensures { Gives result (json_at text.now) }
{
    match Value::from_slice(alloc, text) {
        Ok(value) => change_of(alloc, &value),
        Err(error) if error.is_memory() => Err(Bad::Memory),
        Err(_) => Err(Bad::Reason(NO_OBJECT)),
    }
}
