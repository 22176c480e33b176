//! Where a call was refused, as C has it.

ghost use Rattle.std.specs.Prelude.{◌≡◌};
ghost use Rattle.tenphsar.specs.Loads.{fault_record};

use smil_top::Held;

/// Where the last call was refused: the number of the line, and the column, from 1; 0 where there
/// is none.
#[repr(C)]
#[derive(Clone, Copy)]
pub struct FaultRecord {
    pub line: u32,
    pub column: u32,
}

/// Where the last call was refused.
pub(crate) fn of(held: &Held) -> FaultRecord
    ensures { result ≡ fault_record held.now.fault }
{
    match held.fault() {
        Some(fault) => FaultRecord {
            line: fault.line,
            column: fault.refusal.column().unwrap_or(0),
        },
        None => FaultRecord { line: 0, column: 0 },
    }
}
