//! The trait of message bodies, in which queues are generic.

ghost use Rattle.std.specs.Prelude.{◌≡◌, List, ℕ, length, take};

/// What a queue passes from sender to receiver: a list of bytes that can be truncated.
pub trait Body {
    ghost bytes: { Self → List ℕ };

    ghost keeps: { Self → Self → Type 0 };

    /// The number of bytes.
    fn len(&self) -> u64
        ensures { result ≡ length (bytes self.now) };

    /// Keeps the first `n` bytes, or all where there are no more than `n`: what `MSG_NOERROR`
    /// does to a text that is longer than the receiver's buffer (msgop(2)). `keeps` says
    /// what stays beside the bytes.
    fn cut(&mut self, n: u64)
        ensures front { bytes self.new ≡ take n (bytes self.old) }
        ensures kept { keeps self.old self.new };
}
