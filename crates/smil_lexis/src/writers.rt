//! What a writer leaves where it was refused.

ghost use Rattle.std.specs.Prelude.{◌≡◌, ◌≤◌, length, take, OnOk, OnErr};

use smil_model::Bytes;
use std::alloc::AllocError;

/// What a writer answered. After a refusal `out` is cut back to its first `before` bytes.
pub fn undone(
    written: Result<(), AllocError>,
    out: &mut Bytes,
    before: usize,
) -> Result<(), AllocError>
    requires { OnErr written (before ≤ length out.old) }
    ensures same { result ≡ written }
    ensures ok { OnOk result (out.new ≡ out.old) }
    ensures err { OnErr result (out.new ≡ take before out.old) }
{
    if written.is_err() {
        out.cut_back(before);
    }
    written
}
