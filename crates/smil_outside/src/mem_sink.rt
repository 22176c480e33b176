//! A sink into memory of a fixed size, of which writes with given numbers fail.

ghost use Rattle.std.specs.Prelude.{◌≡◌, ◌↔◌, ◌⊎◌, ◌+◌, ◌-◌, ◌<◌, ◌≤◌, [], ◌++◌, length, Some, IsErr, IsOk, IfOk, OnOk, OnErr, Contains};
ghost use Rattle.std.specs.Io.KnownBytes.{WriteAppends};
ghost use Rattle.smil_outside.specs.Faults.{HasRisen};
ghost use Rattle.std.proofs.Common.{rules};

use crate::failed::Failed;
use crate::fault_plan::FaultPlan;
use crate::sink::Sink;
use std::alloc::{AllocError, Global};
use std::marker::Model;

/// Takes up to `room` bytes, each write whole or not at all.
#[derive(Drop)]
pub struct MemSink {
    buffer: Vec<u8>,
    len: usize,
    plan: FaultPlan,
}

impl Model for MemSink {
    ghost use Rattle.std.specs.Prelude.{◌≤◌, take, vec_len};
    ghost use Rattle.smil_outside.specs.Memory.{SinkState};

    ghost Value = { SinkState };

    ghost view = { λ s.
        record { taken = take s.len s.buffer.items; room = vec_len s.buffer; plan = s.plan } };

    ghost invariant = { λ s. s.len ≤ vec_len s.buffer };
}

impl MemSink {
    ghost use Rattle.smil_outside.specs.Memory.{fresh_plan};

    /// An empty sink of `room` bytes, for which it takes the memory. Its writes with the numbers in
    /// `fail_at`, counted from 1, fail.
    pub fn new(alloc: Global, room: usize, fail_at: &[u32]) -> Result<MemSink, AllocError>
        ensures { IfOk result (λ sink.
            sink ≡ record { taken = []; room = room; plan = fresh_plan fail_at.now }) }
    {
        Ok(MemSink {
            buffer: vec![in alloc; 0; room]?,
            len: 0,
            plan: FaultPlan::new(alloc, fail_at)?,
        })
    }

    /// The bytes that were taken.
    pub fn bytes(&self) -> &[u8]
        ensures { result.now ≡ self.now.taken }
    {
        &self.buffer[..self.len]
    }
}

impl Sink for MemSink {
    ghost use Rattle.smil_outside.specs.Memory.{called, faulted, sure_room_of};

    ghost taken = { λ s. Some s.taken };

    ghost faults = { λ s. s.plan.faults };

    ghost sure_room = { sure_room_of };

    /// Takes the whole piece. It fails where the piece would pass the room, and at the numbers in
    /// `fail_at`.
    fn write(&mut self, piece: &[u8]) -> Result<usize, Failed>
        ensures bound { IfOk result (λ n. n ≤ length piece.now) }
        ensures progress { IfOk result (λ n. 0 < length piece.now → 0 < n) }
        ensures bytes { WriteAppends (Some self.old.taken) (Some self.new.taken) result piece.now }
        ensures kept { OnOk result (self.new.plan.faults ≡ self.old.plan.faults) }
        ensures cause { OnErr result (HasRisen self.old.plan.faults self.new.plan.faults) }
        ensures sure { 0 < length piece.now → length piece.now ≤ sure_room_of self.old
            → IsOk result }
        ensures room { IfOk result (λ n. sure_room_of self.old ≤ sure_room_of self.new + n) }
        ensures fails { IsErr result ↔ (Contains self.old.plan.fail_at (self.old.plan.calls + 1)
            ⊎ (self.old.room < length self.old.taken + length piece.now)) }
        ensures whole { IfOk result (λ n. n ≡ length piece.now) }
        ensures ok { OnOk result (self.new
            ≡ record self.old
            { taken = self.old.taken ++ piece.now; plan = called self.old.plan }) }
        ensures err { OnErr result (self.new
            ≡ record self.old { plan = faulted (called self.old.plan) }) }
    {
        let fails = self.plan.next_fails();
        if fails || piece.len() > self.buffer.len() - self.len {
            self.plan.count_fault();
            return Err(Failed);
        }
        let end = self.len + piece.len();
        self.buffer[self.len..end].copy_from_slice(piece);
        self.len = end;
        Ok(piece.len())
    }

    /// Does nothing, since nothing is kept back.
    fn hand_on(&mut self) -> Result<(), Failed>
        ensures ok { IsOk result }
        ensures same { self.new ≡ self.old }
    {
        Ok(())
    }

    ghost unsure = { Prim.search rules };
}
