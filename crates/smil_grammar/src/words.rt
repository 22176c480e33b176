//! Words that the readers and the writers share.

/// What the header of an outline with serials begins with, before its next serial.
pub const HEADER: &[u8] = b"outline 2 next ";

/// What the item of an access key begins with, before the key.
pub const ACCESS_KEY: &[u8] = b"accesskey(";
