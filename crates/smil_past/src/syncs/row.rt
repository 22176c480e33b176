//! What evaluation reads of the document for one element.

ghost use Rattle.std.specs.Prelude.{◌≡◌, ◌≤◌, IfOk, length, take, drop};
ghost use Rattle.smil_past.specs.Syncs.{syncs_on};

use crate::makeup::Makeup;
use smallvec::SmallVec;
use smil_instances::Syncbase;
use smil_model::Edge;
use std::alloc::AllocError;
use std::marker::Model;

/// What the begin and the end items of an element wait for, in their order, and what its
/// attributes tell.
#[derive(Drop)]
pub struct SyncbaseRow {
    serial: u32,
    /// How many of `syncs` the begin items wait for.
    begins: u32,
    makeup: Makeup,
    /// What the begin items wait for, and then what the end items wait for.
    syncs: SmallVec<Syncbase, 1>,
}

impl Model for SyncbaseRow {
    ghost use Rattle.std.specs.Prelude.{◌≤◌, length, take, drop};
    ghost use Rattle.smil_past.specs.Syncs.{SyncRow};

    ghost Value = { SyncRow };

    ghost view = { λ a. record {
      serial = a.serial;
      begins = take a.begins a.syncs.items;
      ends = drop a.begins a.syncs.items;
      makeup = a.makeup;
    } };

    ghost invariant = { λ a. a.begins ≤ length a.syncs.items };
}

impl SyncbaseRow {
    /// The row of an element, of what its begin items wait for, `begins` of them, and then what its
    /// end items wait for. Refused as where memory runs out also where there are 2^32 begin items or
    /// more.
    pub(crate) fn new(
        serial: u32,
        syncs: SmallVec<Syncbase, 1>,
        begins: usize,
        makeup: Makeup,
    ) -> Result<SyncbaseRow, AllocError>
        requires { begins ≤ length syncs.items }
        ensures { IfOk result (λ row. row ≡ record {
          serial = serial;
          begins = take begins syncs.items;
          ends = drop begins syncs.items;
          makeup = makeup;
        }) }
    {
        let Ok(begins) = u32::try_from(begins) else {
            return Err(AllocError);
        };
        Ok(SyncbaseRow {
            serial,
            begins,
            makeup,
            syncs,
        })
    }

    /// What the attributes tell. It takes no memory.
    pub fn makeup(&self) -> &Makeup
        ensures { result.now ≡ self.now.makeup }
    {
        &self.makeup
    }

    /// What the items of one side wait for. It takes no memory.
    pub fn side(&self, side: Edge) -> &[Syncbase]
        ensures { result.now ≡ syncs_on side self.now }
    {
        let syncs = self.syncs.as_slice();
        let begins = self.begins as usize;
        match side {
            Edge::Begin => &syncs[..begins],
            Edge::End => &syncs[begins..],
        }
    }
}
