//! Changes of the settings as JSON values. What is not there has no member, nor has an empty list.

ghost use Rattle.std.specs.Prelude.{◌≡◌, ◌<◌, ◌^◌, IfOk, OnOk, option_map};
ghost use Rattle.std.specs.List.{All};
ghost use Rattle.serde_json.specs.View.{view, members_view};
ghost use Rattle.call_trace.specs.Settings.{IsChange, IsSmallStream};
ghost use Rattle.call_trace.specs.Written.{whole_json, truth_json, list_json, stream_json, put_if, present, settings_of, change_json};

use allocator::Stream;
use gcc_units::NoMemory;
use send_core::Change;
use serde_json::{Map, Value, json};
use std::alloc::Global;

/// Puts a member in, if it is there.
fn put(
    alloc: Global,
    map: &mut Map<String, Value>,
    key: &str,
    value: Option<Value>,
) -> Result<(), NoMemory>
    ensures { OnOk result (members_view map.new.entries ≡ put_if key.now (option_map view value) (members_view map.old.entries)) }
{
    match value {
        Some(value) => Ok(serde_json::put(map, alloc, key, value)?),
        None => Ok(()),
    }
}

fn whole(number: Option<u64>) -> Option<Value>
    ensures { option_map view result ≡ option_map whole_json number }
{
    match number {
        Some(number) => Some(Value::from(number)),
        None => None,
    }
}

fn truth(truth: Option<bool>) -> Option<Value>
    ensures { option_map view result ≡ option_map truth_json truth }
{
    match truth {
        Some(truth) => Some(Value::from(truth)),
        None => None,
    }
}

fn stream_value(alloc: Global, stream: &Stream) -> Result<Value, NoMemory>
    ensures written { IfOk result (λ v. view v ≡ stream_json stream.now) }
    ensures small { OnOk result (IsSmallStream stream.now) }
{
    let Stream {
        id,
        min,
        max,
        weight,
        enforced,
    } = *stream;
    let value = json!(in alloc; {
        "id": id,
        "min": min,
        "max": max,
        "weight": weight,
        "enforced": enforced
    })?;
    Ok(value)
}

/// The list of streams, if there are any.
fn streams_value(alloc: Global, streams: &[Stream]) -> Result<Option<Value>, NoMemory>
    ensures written { IfOk result (λ o. option_map view o ≡ list_json stream_json streams.now) }
    ensures small { OnOk result (All IsSmallStream streams.now) }
{
    let mut list = Vec::new(alloc);
    for stream in streams {
        serde_json::push(&mut list, stream_value(alloc, stream)?)?;
    }
    Ok(some_list(list))
}

/// The list of ids, if there are any.
fn ids_value(alloc: Global, ids: &[u32]) -> Result<Option<Value>, NoMemory>
    ensures written { IfOk result (λ o. option_map view o ≡ list_json whole_json ids.now) }
    ensures small { OnOk result (All (λ n. n < 2 ^ 32) ids.now) }
{
    let mut list = Vec::new(alloc);
    for id in ids {
        serde_json::push(&mut list, Value::from(*id))?;
    }
    Ok(some_list(list))
}

/// A list, if there is anything in it.
fn some_list(list: Vec<Value>) -> Option<Value>
    ensures { option_map view result ≡ list_json view list.items }
{
    if list.is_empty() {
        return None;
    }
    Some(Value::Array(list))
}

/// The JSON object of a change.
pub fn change_value(alloc: Global, change: &Change) -> Result<Value, NoMemory>
    ensures written { IfOk result (λ v. view v ≡ change_json change.now) }
    ensures spells { OnOk result (IsChange (present (settings_of change.now)) change.now) }
{
    let streams = streams_value(alloc, change.streams.as_slice())?;
    let removed = ids_value(alloc, change.removed.as_slice())?;
    let mut map = Map::new(alloc);
    // From the last key to the first: each goes in front of the others.
    put(alloc, &mut map, "window", whole(change.window))?;
    put(alloc, &mut map, "streams", streams)?;
    put(alloc, &mut map, "start", whole(change.start))?;
    put(alloc, &mut map, "removed", removed)?;
    put(alloc, &mut map, "probe", whole(change.probe))?;
    put(alloc, &mut map, "padding_rate", whole(change.padding_rate))?;
    put(
        alloc,
        &mut map,
        "pacing_percent",
        whole(change.pacing_percent),
    )?;
    put(alloc, &mut map, "paced_audio", truth(change.paced_audio))?;
    put(alloc, &mut map, "min", whole(change.min))?;
    put(alloc, &mut map, "max", whole(change.max))?;
    put(alloc, &mut map, "extension_id", whole(change.extension_id))?;
    Ok(Value::Object(map))
}
