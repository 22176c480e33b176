//! Many instance times added, or none.

ghost use Rattle.std.specs.Prelude.{◌≡◌, OnOk, OnErr, ◌≤◌, length};
ghost use Rattle.smil_instance_rows.specs.Changes.{Fits, with_adds, SomeMade, IsAsBefore};

use super::cell::Add;
use super::rows::Rows;
use std::alloc::AllocError;

/// Adds all. After a refusal all is as before.
pub fn add_each(rows: &mut Rows, adds: &[Add]) -> Result<(), AllocError>
    requires { Fits rows.old adds.now }
    ensures ok { OnOk result (rows.new ≡ with_adds rows.old adds.now) }
    ensures err { OnErr result (rows.new ≡ rows.old) }
{
    for (made, add) in adds.iter().enumerate() {
        if let Err(error) = rows.add(add.cell, add.kept) {
            undo_each(rows, adds, made);
            return Err(error);
        }
    }
    Ok(())
}

/// Takes out what the first adds added, the last of them first. It takes no memory.
pub fn undo_each(rows: &mut Rows, adds: &[Add], made: usize)
    requires made { made ≤ length adds.now }
    requires some { SomeMade rows.old adds.now made }
    ensures { IsAsBefore rows.old adds.now made rows.new }
{
    for add in adds[..made].iter().rev() {
        rows.undo(add.cell);
    }
}
