//! Faults of node lines, as refusals of the outline's lines.

ghost use Rattle.std.specs.Prelude.{◌≡◌, ◌≤◌, ◌+◌};
ghost use Rattle.smil_model.specs.declared.limits.TheConstants.{LINE_BYTES};
ghost use Rattle.smil_grammar.specs.Outlines.{refused as refused_line};
ghost use Rattle.smil_outline.specs.Steps.{IsNear, last_column};

use smil_attrs::NodeFault;
use smil_model::Refusal;

// A column behind so many spaces.
fn behind(spaces: usize, column: u32) -> u32
    requires spaces { spaces ≤ LINE_BYTES }
    requires column { column ≤ last_column }
    ensures { result ≡ spaces + column }
{
    spaces as u32 + column
}

/// The refusal of a line whose node has a fault behind so many spaces.
pub fn refused(spaces: usize, fault: NodeFault) -> Refusal
    requires spaces { spaces ≤ LINE_BYTES }
    requires near { IsNear fault }
    ensures { result ≡ refused_line spaces fault }
{
    match fault {
        NodeFault::BadOutline => Refusal::BadOutline,
        NodeFault::Unsupported { column } => Refusal::Unsupported {
            column: behind(spaces, column),
        },
        NodeFault::BadPlace => Refusal::BadPlace,
        NodeFault::UnknownAttribute { column } => Refusal::UnknownAttribute {
            column: behind(spaces, column),
        },
        NodeFault::BadValue { column } => Refusal::BadValue {
            column: behind(spaces, column),
        },
        NodeFault::TooManyItems { column } => Refusal::TooManyItems {
            column: behind(spaces, column),
        },
        NodeFault::Memory => Refusal::Memory,
    }
}
