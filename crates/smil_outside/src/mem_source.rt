//! A source over bytes in memory, of which reads with given numbers fail.

ghost use Rattle.std.specs.Prelude.{◌≡◌, ◌↔◌, ◌+◌, ◌<◌, ◌≤◌, length, drop, min, Some, IsErr, IsOk, IfOk, OnOk, OnErr, Contains};
ghost use Rattle.std.specs.Io.KnownBytes.{ReadConsumes};
ghost use Rattle.smil_outside.specs.Faults.{HasRisen};

use crate::failed::Failed;
use crate::fault_plan::FaultPlan;
use crate::source::Source;
use std::alloc::{AllocError, Global};
use std::marker::Model;

/// How many bytes a source gives at a read at most, where nothing asks for another number.
pub const CHUNK_BYTES: usize = 4096;

/// Gives the bytes that it was made with, at most `chunk` of them at a read.
#[derive(Drop)]
pub struct MemSource {
    bytes: Vec<u8>,
    at: usize,
    chunk: usize,
    plan: FaultPlan,
}

impl Model for MemSource {
    ghost use Rattle.std.specs.Prelude.{◌<◌, ◌≤◌, drop, vec_len};
    ghost use Rattle.smil_outside.specs.Memory.{SourceState};

    ghost Value = { SourceState };

    ghost view = { λ s. record { rest = drop s.at s.bytes.items; chunk = s.chunk; plan = s.plan } };

    ghost invariant = { λ s. (s.at ≤ vec_len s.bytes) × (0 < s.chunk) };
}

impl MemSource {
    ghost use Rattle.smil_outside.specs.Memory.{fresh_plan};

    /// A source of these bytes, whose reads with the numbers in `fail_at`, counted from 1, fail.
    pub fn new(
        alloc: Global,
        bytes: &[u8],
        chunk: usize,
        fail_at: &[u32],
    ) -> Result<MemSource, AllocError>
        requires { 0 < chunk }
        ensures { IfOk result (λ source.
            source ≡ record { rest = bytes.now; chunk = chunk; plan = fresh_plan fail_at.now }) }
    {
        Ok(MemSource {
            bytes: Vec::from_slice(alloc, bytes)?,
            at: 0,
            chunk,
            plan: FaultPlan::new(alloc, fail_at)?,
        })
    }
}

impl Source for MemSource {
    ghost use Rattle.smil_outside.specs.Memory.{SurelyGives, called, faulted};

    ghost rest = { λ s. Some s.rest };

    ghost faults = { λ s. s.plan.faults };

    ghost never_fails = { SurelyGives };

    /// Gives as many bytes as the chunk, the buffer and the rest allow. It fails at the numbers in
    /// `fail_at`.
    fn read(&mut self, buf: &mut [u8]) -> Result<usize, Failed>
        ensures bound { IfOk result (λ n. n ≤ length buf.new) }
        ensures bytes { ReadConsumes (Some self.old.rest) (Some self.new.rest) result buf.new }
        ensures kept { OnOk result (self.new.plan.faults ≡ self.old.plan.faults) }
        ensures cause { OnErr result (HasRisen self.old.plan.faults self.new.plan.faults) }
        ensures sure { SurelyGives self.old → IsOk result × SurelyGives self.new }
        ensures fails { IsErr result ↔ Contains self.old.plan.fail_at (self.old.plan.calls + 1) }
        ensures most { IfOk result (λ n.
            n ≡ min (min self.old.chunk (length buf.old)) (length self.old.rest)) }
        ensures ok { IfOk result (λ n. self.new
            ≡ record self.old { rest = drop n self.old.rest; plan = called self.old.plan }) }
        ensures err { OnErr result (self.new
            ≡ record self.old { plan = faulted (called self.old.plan) }) }
    {
        if self.plan.next_fails() {
            self.plan.count_fault();
            return Err(Failed);
        }
        let left = &self.bytes[self.at..];
        let n = self.chunk.min(buf.len()).min(left.len());
        buf[..n].copy_from_slice(&left[..n]);
        self.at += n;
        Ok(n)
    }
}
