//! A source and a sink over memory, which take or give pieces and fail at chosen calls.

ghost use Rattle.std.specs.Prelude.{◌≡◌, ◌↔◌, ◌⊎◌, ℕ, ◌<◌, ◌≤◌, min, List, [], length, take, Some, Contains, IsErr, IsTrue, IfOk, IfSome, OnErr, MatchResult, vec_len, vec_capacity, ◌+◌, ◌++◌};
ghost use Rattle.std.specs.Io.{ReadsAtMost};
ghost use Rattle.std.specs.Io.KnownBytes.{ReadConsumes};
ghost use Rattle.run_io.specs.Faults.{HasCause};
ghost use Rattle.run_io.specs.Growth.{Grew};
ghost use Rattle.run_io.specs.InMemory.{failed_read, gave, failed_write, took};

use crate::outside::{Failed, Sink, Source};
use gcc_units::{Bytes, IdList, NoMemory};
use std::alloc::Global;
use std::marker::Model;

/// A source of the bytes that it is made of.
#[derive(Drop)]
pub struct MemSource {
    bytes: Bytes,
    at: usize,
    piece: u32,
    fails: IdList,
    reads: u64,
    faults: u64,
}

impl Model for MemSource {
    ghost use Rattle.std.specs.Prelude.{◌<◌, ◌≤◌, length, drop};
    ghost use Rattle.run_io.specs.InMemory.{SourceState};

    ghost Value = { SourceState };

    ghost view = { λ s. record { left = drop s.at s.bytes.items; piece = s.piece; fails = s.fails.items; reads = s.reads; faults = s.faults } };

    ghost invariant = { λ s. (s.at ≤ length s.bytes.items) × (0 < s.piece) };
}

impl MemSource {
    /// A source that gives these bytes, at most `piece` of them a read, and fails at the reads whose
    /// ordinal, from 0, is in `fails`.
    pub fn new(bytes: Bytes, piece: u32, fails: IdList) -> MemSource
        requires { 0 < piece }
        ensures { result ≡ record { left = bytes.items; piece = piece; fails = fails.items; reads = 0; faults = 0 } }
    {
        MemSource {
            bytes,
            at: 0,
            piece,
            fails,
            reads: 0,
            faults: 0,
        }
    }
}

impl Source for MemSource {
    ghost left = { λ s. Some s.left };

    ghost faults = { λ s. s.faults };

    fn read(&mut self, buf: &mut [u8]) -> Result<usize, Failed>
        requires { 0 < length buf.old }
        ensures bound { ReadsAtMost result buf.new }
        ensures bytes { ReadConsumes (Some self.old.left) (Some self.new.left) result buf.new }
        ensures end { IfOk result (λ n. IfSome (Some self.old.left) (λ bytes. (n ≡ 0) ↔ (bytes ≡ []))) }
        ensures cause { HasCause self.old.faults self.new.faults result }
        ensures fails { IsErr result ↔ Contains self.old.fails self.old.reads }
        ensures failed { OnErr result (self.new ≡ failed_read self.old) }
        ensures count { IfOk result (λ n. n ≡ min (min self.old.piece (length self.old.left)) (length buf.old)) }
        ensures gave { IfOk result (λ n. self.new ≡ gave n self.old) }
    {
        let ordinal = self.reads;
        self.reads = ordinal.saturating_add(1);
        if is_named(self.fails.as_slice(), ordinal) {
            self.faults = self.faults.saturating_add(1);
            return Err(Failed);
        }
        let left = self.bytes.as_slice().split_at(self.at).1;
        let count = (self.piece as usize).min(left.len()).min(buf.len());
        copy_front(left, buf, count);
        self.at += count;
        Ok(count)
    }
}

/// A sink that keeps what is written.
#[derive(Drop)]
pub struct MemSink {
    bytes: Vec<u8>,
    room: usize,
    piece: u32,
    fails: IdList,
    writes: u64,
    faults: u64,
}

impl Model for MemSink {
    ghost use Rattle.std.specs.Prelude.{◌+◌, ◌<◌, ◌≤◌, vec_len, vec_capacity};
    ghost use Rattle.run_io.specs.InMemory.{SinkState};

    ghost Value = { SinkState };

    ghost view = { λ s. record { written = s.bytes.items; room = s.room; piece = s.piece; fails = s.fails.items; writes = s.writes; faults = s.faults } };

    ghost invariant = { λ s. (vec_len s.bytes + s.room ≤ vec_capacity s.bytes) × (0 < s.piece) };
}

impl MemSink {
    /// A sink that has room for `room` bytes, takes at most `piece` of them a write, and fails at the
    /// writes whose ordinal, from 0, is in `fails`, and where no room is left.
    pub fn new(alloc: Global, room: u64, piece: u32, fails: IdList) -> Result<MemSink, NoMemory>
        requires { 0 < piece }
        ensures { IfOk result (λ s. s ≡ record { written = []; room = room; piece = piece; fails = fails.items; writes = 0; faults = 0 }) }
    {
        let bytes = Vec::with_capacity(alloc, room as usize)?;
        Ok(MemSink {
            bytes,
            room: room as usize,
            piece,
            fails,
            writes: 0,
            faults: 0,
        })
    }

    /// What was written.
    pub fn written(&self) -> &[u8]
        ensures { result.now ≡ self.now.written }
    {
        self.bytes.as_slice()
    }
}

impl Sink for MemSink {
    ghost written = { λ s. Some s.written };

    ghost faults = { λ s. s.faults };

    fn write(&mut self, piece: &[u8]) -> Result<usize, Failed>
        requires { 0 < length piece.now }
        ensures bound { IfOk result (λ n. (0 < n) × (n ≤ length piece.now)) }
        ensures bytes { MatchResult result (λ n. Grew (Some self.old.written) (Some self.new.written) (take n piece.now)) (λ _. Grew (Some self.old.written) (Some self.new.written) []) }
        ensures cause { HasCause self.old.faults self.new.faults result }
        ensures fails { IsErr result ↔ (Contains self.old.fails self.old.writes ⊎ (self.old.room ≡ 0)) }
        ensures failed { OnErr result (self.new ≡ failed_write self.old) }
        ensures count { IfOk result (λ n. n ≡ min (min self.old.piece self.old.room) (length piece.now)) }
        ensures took { IfOk result (λ n. self.new ≡ took (take n piece.now) self.old) }
    {
        let ordinal = self.writes;
        self.writes = ordinal.saturating_add(1);
        if self.room == 0 || is_named(self.fails.as_slice(), ordinal) {
            self.faults = self.faults.saturating_add(1);
            return Err(Failed);
        }
        let count = (self.piece as usize).min(self.room).min(piece.len());
        put_all(&mut self.bytes, &piece[..count]);
        self.room -= count;
        Ok(count)
    }
}

// Whether a call of this ordinal is to fail.
fn is_named(fails: &[u32], ordinal: u64) -> bool
    ensures { IsTrue result ↔ Contains fails.now ordinal }
{
    fails.iter().any(|named| u64::from(*named) == ordinal)
}

// Copies the first bytes of `from` in front of `to`.
fn copy_front(from: &[u8], to: &mut [u8], count: usize)
    requires from { count ≤ length from.now }
    requires to { count ≤ length to.old }
    ensures { take count to.new ≡ take count from.now }
{
    to[..count].copy_from_slice(&from[..count]);
}

// Puts the bytes at the end, where there is room for them.
fn put_all(to: &mut Vec<u8>, bytes: &[u8])
    requires { vec_len to.old + length bytes.now ≤ vec_capacity to.old }
    ensures items { to.new.items ≡ to.old.items ++ bytes.now }
    ensures capacity { vec_capacity to.old ≤ vec_capacity to.new }
{
    let Ok(()) = to.extend_from_slice(bytes) else {
        unreachable!();
    };
}
