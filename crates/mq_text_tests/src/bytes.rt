//! What the bytes of blocks and texts have to be.

use std::process::Abort;

/// The bytes are all this letter.
pub(crate) fn are_all(rt: &impl Abort, bytes: &[u8], letter: u8) {
    for byte in bytes {
        holds!(rt; *byte == letter);
    }
}

/// The bytes after a part with which they begin.
pub(crate) fn after<'a>(rt: &impl Abort, part: &[u8], bytes: &'a [u8]) -> &'a [u8] {
    holds!(rt; part.len() <= bytes.len());
    let (now, later) = bytes.split_at(part.len());
    holds!(rt; part == now);
    later
}
