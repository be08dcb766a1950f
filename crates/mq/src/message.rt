//! The argument of a send by copy: a type, a tag and a slice of bytes.

ghost use Rattle.std.specs.Prelude.{◌≡◌};

/// A message to be sent (msgop(2), msgsnd).
#[derive(Clone, Copy)]
pub struct Message<'b> {
    /// Its type, from 1.
    pub mtype: i64,
    /// The sender's own number, which the receiver gets beside the bytes.
    pub tag: u64,
    /// Its text, up to `MSGMAX` bytes.
    pub bytes: &'b [u8],
}

impl<'b> Message<'b> {
    /// A message of this type and text, with the tag 0.
    pub fn new(mtype: i64, bytes: &'b [u8]) -> Message<'b>
        ensures mtype { result.mtype ≡ mtype }
        ensures tag { result.tag ≡ 0 }
        ensures bytes { result.bytes ≡ bytes.entry }
    {
        Message {
            mtype,
            tag: 0,
            bytes,
        }
    }

    /// The same message with this tag.
    pub fn tagged(self, tag: u64) -> Message<'b>
        ensures mtype { result.mtype ≡ self.entry.mtype }
        ensures tag { result.tag ≡ tag }
        ensures bytes { result.bytes ≡ self.entry.bytes }
    {
        Message { tag, ..self }
    }
}
