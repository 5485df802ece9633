//! The checks of a change.

ghost use Rattle.std.specs.Prelude.{◌≡◌, ◌≤◌, ◌+◌, ◌&&◌, nat_le, nat_lt, IfOk, length};
ghost use Rattle.send_core.specs.Settings.{is_rate, passes, has_rates, has_bounds, has_pacing, has_extension, plans, fault_of};

use crate::call::Change;
use crate::settings::{
    GREATEST_EXTENSION, GREATEST_PERCENT, LEAST_EXTENSION, LEAST_PERCENT, LEAST_WINDOW, Settings,
};
use allocator::{StreamSet, are_sound, ids_differ};
use gcc_units::{GREATEST_RATE, LEAST_RATE, MOST_CLUSTERS, MOST_STREAMS, NoMemory};
use pace_budget::GREATEST_WINDOW;
use std::alloc::Global;

// Whether what is there, if it is there, is a rate.
fn is_rate(rate: Option<u64>) -> bool
    ensures { result ≡ passes is_rate rate }
{
    match rate {
        None => true,
        Some(rate) => LEAST_RATE <= rate && rate <= GREATEST_RATE,
    }
}

// Whether what is there, if it is there, is a padding rate.
fn is_padding_rate(rate: Option<u64>) -> bool
    ensures { result ≡ passes (λ n. nat_le n GREATEST_RATE) rate }
{
    match rate {
        None => true,
        Some(rate) => rate <= GREATEST_RATE,
    }
}

// Check 1: the rates are in their ranges.
fn has_rates(change: &Change) -> bool
    ensures { result ≡ has_rates change.now }
{
    (is_rate(change.start) && is_rate(change.min))
        && (is_rate(change.max) && is_padding_rate(change.padding_rate))
        && is_rate(change.probe)
}

// Check 2: after the change the least estimate is at most the greatest.
fn has_bounds(settings: &Settings, change: &Change) -> bool
    ensures { result ≡ has_bounds settings.now change.now }
{
    change.min.unwrap_or(settings.bounds.min) <= change.max.unwrap_or(settings.bounds.max)
}

fn is_percent(percent: Option<u64>) -> bool
    ensures { result ≡ passes (λ n. nat_le LEAST_PERCENT n && nat_le n GREATEST_PERCENT) percent }
{
    match percent {
        None => true,
        Some(percent) => LEAST_PERCENT <= percent && percent <= GREATEST_PERCENT,
    }
}

fn is_window(window: Option<u64>) -> bool
    ensures { result ≡ passes (λ n. nat_le LEAST_WINDOW n && nat_le n GREATEST_WINDOW) window }
{
    match window {
        None => true,
        Some(window) => LEAST_WINDOW <= window && window <= GREATEST_WINDOW,
    }
}

// Check 3: percent and window are in their ranges.
fn has_pacing(change: &Change) -> bool
    ensures { result ≡ has_pacing change.now }
{
    is_percent(change.pacing_percent) && is_window(change.window)
}

// Check 4: the ID is in its range, and the one in force where it may not change any more.
fn has_extension(fixed: bool, settings: &Settings, change: &Change) -> bool
    ensures { result ≡ has_extension fixed settings.now change.now }
{
    match change.extension_id {
        None => true,
        Some(id) => {
            (LEAST_EXTENSION <= id && id <= GREATEST_EXTENSION)
                && (!fixed || id == settings.extension_id)
        }
    }
}

/// The most clusters that a change plans.
pub const MOST_PLANS: u32 = 3;

/// How many clusters a change plans.
pub fn count_plans(started: bool, change: &Change) -> u32
    ensures count { result ≡ length (plans started change.now) }
    ensures few { result ≤ MOST_PLANS }
{
    let first = if !started && change.start.is_some() {
        2
    } else {
        0
    };
    let probe = if change.probe.is_some() { 1 } else { 0 };
    first + probe
}

/// Whether a packet was accepted or sent.
pub fn has_any(accepted: u32, sent: u64) -> bool
    ensures { result ≡ nat_lt 0 (accepted + sent) }
{
    accepted > 0 || sent > 0
}

/// The first check that a change fails, if it fails one. The check of the ids sorts a copy of them.
pub fn fault_of(
    alloc: Global,
    fixed: bool,
    settings: &Settings,
    streams: &StreamSet,
    waiting: u32,
    started: bool,
    change: &Change,
) -> Result<Option<u32>, NoMemory>
    ensures { IfOk result (λ fault. fault ≡ fault_of (record { fixed = fixed; settings = settings.now; streams = streams.now; waiting = waiting; started = started }) change.now) }
{
    if !has_rates(change) {
        return Ok(Some(1));
    }
    if !has_bounds(settings, change) {
        return Ok(Some(2));
    }
    if !has_pacing(change) {
        return Ok(Some(3));
    }
    if !has_extension(fixed, settings, change) {
        return Ok(Some(4));
    }
    if !are_sound(&change.streams) {
        return Ok(Some(5));
    }
    if !ids_differ(alloc, &change.streams, &change.removed)? {
        return Ok(Some(6));
    }
    if streams.len_after(&change.streams, &change.removed) > u64::from(MOST_STREAMS) {
        return Ok(Some(7));
    }
    if u64::from(waiting) + u64::from(count_plans(started, change)) > u64::from(MOST_CLUSTERS) {
        return Ok(Some(8));
    }
    Ok(None)
}
