ghost use Rattle.std.specs.Prelude.{◌≡◌, ◌≤◌, ◌<◌, ◌↔◌, ◌+◌, ◌*◌, ◌==◌, Some, false, true, [], length, IsErr, IfOk, OnOk, OnErr, IsTrue, min, alloc_error};
ghost use Rattle.std.specs.List.{list_any};
ghost use Rattle.std.specs.Io.{ReadsAtMost, WritesAtMost};
ghost use Rattle.std.specs.Io.KnownBytes.{ReadConsumes, WriteAppends};
ghost use Rattle.net_io.specs.Streams.{CanCount, ended_after};
ghost use Rattle.net_io.specs.Memory.{is_listed, calls_after};

use crate::streams::{Failed, Sink, Source, WriteFault};
use std::alloc::Global;
use std::marker::Model;

/// Whether the number is in the list.
fn is_in(number: u64, list: &[u64]) -> bool
    ensures { result ≡ list_any (λ k. k == number) list.now }
{
    list.iter().any(|k| *k == number)
}

/// Whether the next call is listed.
fn is_next_listed(calls: u64, fail: &[u64]) -> bool
    ensures { result ≡ is_listed calls fail.now }
{
    if calls < u64::MAX {
        is_in(calls + 1, fail)
    } else {
        false
    }
}

/// Bytes in memory, given in pieces, with reads that fail by their number. Calls are counted up to `u64::MAX`, and none
/// fails after that.
#[derive(Drop)]
pub struct MemSource {
    bytes: Vec<u8>,
    at: usize,
    fail: Vec<u64>,
    piece: usize,
    calls: u64,
    faults: u64,
    ended: bool,
}

impl Model for MemSource {
    ghost use Rattle.std.specs.Prelude.{◌≤◌, drop, vec_len};
    ghost use Rattle.net_io.specs.Memory.{SourceParts};

    ghost Value = { SourceParts };

    ghost view = { λ s. record {
      rest = drop s.at s.bytes.items;
      fail = s.fail.items;
      piece = s.piece;
      calls = s.calls;
      faults = s.faults;
      ended = s.ended;
    } };

    ghost invariant = { λ s. (s.at ≤ vec_len s.bytes) × (1 ≤ s.piece) };
}

impl MemSource {
    /// A source of these bytes, at most `piece` a call, whose k-th read fails where k is in `fail`.
    pub fn new(bytes: Vec<u8>, fail: Vec<u64>, piece: usize) -> MemSource
        requires { 1 ≤ piece }
        ensures { result
            ≡ record {
              rest = bytes.items;
              fail = fail.items;
              piece = piece;
              calls = 0;
              faults = 0;
              ended = false;
            } }
    {
        MemSource {
            bytes,
            at: 0,
            fail,
            piece,
            calls: 0,
            faults: 0,
            ended: false,
        }
    }
}

impl Source for MemSource {
    ghost seen = { λ s. record { left = Some s.rest; faults = s.faults; ended = s.ended } };

    fn read(&mut self, room: &mut [u8]) -> Result<usize, Failed>
        requires { CanCount self.old.faults }
        ensures bound { ReadsAtMost result room.new }
        ensures bytes { ReadConsumes (Some self.old.rest) (Some self.new.rest) result room.new }
        ensures kept { OnOk result (self.new.faults ≡ self.old.faults) }
        ensures failed { OnErr result (self.old.faults < self.new.faults) }
        ensures end { self.new.ended ≡ ended_after self.old.ended room.new result }
        ensures listed { IsErr result ↔ (is_listed self.old.calls self.old.fail ≡ true) }
        ensures most { IfOk result
            (λ n. n ≡ min self.old.piece (min (length room.new) (length self.old.rest))) }
        ensures stays { (self.new.fail ≡ self.old.fail) × (self.new.piece ≡ self.old.piece) }
        ensures counted { self.new.calls ≡ calls_after self.old.calls }
        ensures at_most_one { self.new.faults ≤ self.old.faults + 1 }
    {
        let read_fails = is_next_listed(self.calls, self.fail.as_slice());
        self.calls = self.calls.saturating_add(1);
        if read_fails {
            self.faults += 1;
            if !room.is_empty() {
                self.ended = false;
            }
            return Err(Failed);
        }
        let here = self.bytes.len() - self.at;
        let count = self.piece.min(room.len().min(here));
        let end = self.at + count;
        room[..count].copy_from_slice(&self.bytes[self.at..end]);
        self.at = end;
        if !room.is_empty() {
            self.ended = count == 0;
        }
        Ok(count)
    }
}

/// Bytes that were written to memory, taken in pieces, with writes that fail by their number. The bytes grow, so a write
/// that isn't listed may find no memory.
#[derive(Drop)]
pub struct MemSink {
    bytes: Vec<u8>,
    fail: Vec<u64>,
    piece: usize,
    calls: u64,
    faults: u64,
}

impl Model for MemSink {
    ghost use Rattle.std.specs.Prelude.{◌≤◌};
    ghost use Rattle.net_io.specs.Memory.{SinkParts};

    ghost Value = { SinkParts };

    ghost view = { λ s. record {
      bytes = s.bytes.items;
      fail = s.fail.items;
      piece = s.piece;
      calls = s.calls;
      faults =
          s.faults;
    } };

    ghost invariant = { λ s. 1 ≤ s.piece };
}

impl MemSink {
    /// A sink that takes at most `piece` bytes a call, whose k-th write fails where k is in `fail`. It holds no byte.
    pub fn new(alloc: Global, fail: Vec<u64>, piece: usize) -> MemSink
        requires { 1 ≤ piece }
        ensures { result
            ≡ record { bytes = []; fail = fail.items; piece = piece; calls = 0; faults = 0 } }
    {
        MemSink {
            bytes: Vec::new(alloc),
            fail,
            piece,
            calls: 0,
            faults: 0,
        }
    }

    /// The bytes that were written.
    pub fn written(&self) -> &[u8]
        ensures { result.now ≡ self.now.bytes }
    {
        self.bytes.as_slice()
    }
}

impl Sink for MemSink {
    ghost seen = { λ s. record { bytes = Some s.bytes; faults = s.faults } };

    fn write(&mut self, piece: &[u8]) -> Result<usize, WriteFault>
        requires { CanCount self.old.faults }
        ensures bound { WritesAtMost result piece.now }
        ensures bytes { WriteAppends (Some self.old.bytes) (Some self.new.bytes) result piece.now }
        ensures takes { IfOk result (λ n. 0 < length piece.now → 1 ≤ n) }
        ensures kept { OnOk result (self.new.faults ≡ self.old.faults) }
        ensures failed { result ≡ Err WriteFault.Failed → self.old.faults < self.new.faults }
        ensures memory { result ≡ Err (WriteFault.Memory alloc_error)
            → self.new.faults ≡ self.old.faults }
        ensures listed { (result ≡ Err WriteFault.Failed)
            ↔ (is_listed self.old.calls self.old.fail ≡ true) }
        ensures most { IfOk result (λ n. n ≡ min self.old.piece (length piece.now)) }
        ensures stays { (self.new.fail ≡ self.old.fail) × (self.new.piece ≡ self.old.piece) }
        ensures counted { self.new.calls ≡ calls_after self.old.calls }
        ensures at_most_one { self.new.faults ≤ self.old.faults + 1 }
    {
        let write_fails = is_next_listed(self.calls, self.fail.as_slice());
        self.calls = self.calls.saturating_add(1);
        if write_fails {
            self.faults += 1;
            return Err(WriteFault::Failed);
        }
        let count = self.piece.min(piece.len());
        self.bytes
            .extend_from_slice(&piece[..count])
            .map_err(WriteFault::Memory)?;
        Ok(count)
    }
}
