//! A received message taken apart: its header, which is a message with no text, and its text.

ghost use Rattle.std.specs.Prelude.{◌≡◌};
ghost use Rattle.mq.specs.Bytes.{with_text};

use mq_calls::Delivered;

/// The header and the text.
#[inline]
pub(crate) fn split_text<B>(delivered: Delivered<B>) -> (Delivered<()>, B)
    ensures header { result.0 ≡ with_text delivered tt }
    ensures text { result.1 ≡ delivered.text }
{
    let Delivered {
        entry,
        mtype,
        sender,
        tag,
        length,
        text,
    } = delivered;
    let header = Delivered {
        entry,
        mtype,
        sender,
        tag,
        length,
        text: (),
    };
    (header, text)
}

/// The message with this header and this text.
#[inline]
pub(crate) fn join_text<B>(header: Delivered<()>, text: B) -> Delivered<B>
    ensures { result ≡ with_text header text }
{
    Delivered {
        entry: header.entry,
        mtype: header.mtype,
        sender: header.sender,
        tag: header.tag,
        length: header.length,
        text,
    }
}
