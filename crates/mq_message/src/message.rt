//! The message that a send adds to a queue and a receive takes out (msgop(2)).

ghost use Rattle.std.specs.Prelude.{◌≡◌};

/// A message as its sender sends it. It can be dropped only where its body can.
#[derive(Drop)]
pub struct Message<B> {
    /// The message's type, which a queue takes from 1 on.
    pub mtype: i64,
    /// A number of the sender's own, which no queue reads.
    pub tag: u64,
    pub body: B,
    /// The number of the sender's seat, from 1, in place of the process id. It stands behind the
    /// words, so that copies of them are aligned.
    pub sender: u16,
}

impl<B> Message<B> {
    /// The body alone.
    pub fn into_body(self) -> B
        ensures { result ≡ self.body }
    {
        let Message {
            mtype: _,
            tag: _,
            body,
            sender: _,
        } = self;
        body
    }
}
