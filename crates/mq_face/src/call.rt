//! A call of msgget(2), msgop(2) or msgctl(2), and its layout as the numbers that C writes.

ghost use Rattle.std.specs.Prelude.{◌≡◌, ◌%◌, ◌^◌};
ghost use Rattle.mq_face.specs.Flags.{has};
ghost use Rattle.mq_face.specs.Layout.{call_of, kind_number, kind_of, numbers_of};

/// How many numbers a call is.
pub const CALL_NUMBERS: usize = 8;

/// Which call is made.
#[derive(Clone, Copy, Debug, PartialEq, Eq)]
pub enum CallKind {
    Get,
    Send,
    Receive,
    Control,
    Unknown,
}

impl CallKind {
    /// The kind that has this number.
    pub fn of(number: u64) -> CallKind
        ensures { result ≡ kind_of number }
    {
        match number {
            1 => CallKind::Get,
            2 => CallKind::Send,
            3 => CallKind::Receive,
            4 => CallKind::Control,
            _ => CallKind::Unknown,
        }
    }

    pub fn number(self) -> u64
        ensures { result ≡ kind_number self }
    {
        match self {
            CallKind::Get => 1,
            CallKind::Send => 2,
            CallKind::Receive => 3,
            CallKind::Control => 4,
            CallKind::Unknown => 0,
        }
    }
}

/// A call as C gives it, of which each kind reads the fields that it has.
#[derive(Clone, Copy, Debug, PartialEq, Eq)]
pub struct Call {
    pub kind: CallKind,
    /// A key, or an id, or the number of a slot.
    pub number: i32,
    /// The flags, or the command of `Control`.
    pub flags: u32,
    /// The type of a message, or that by which one is selected.
    pub mtype: i64,
    /// The length of a text, the room for one, or a quota.
    pub size: u64,
    pub moment: u64,
    /// Whether the call has waited before.
    pub waited: bool,
    /// Whether it has a buffer: its pointer is not null.
    pub buffer: bool,
}

impl Call {
    /// The call of these numbers.
    pub fn read(numbers: [u64; CALL_NUMBERS]) -> Call
        ensures { result ≡ call_of numbers }
    {
        Call {
            kind: CallKind::of(numbers[0]),
            number: low(numbers[1]).cast_signed(),
            flags: low(numbers[2]),
            mtype: numbers[3].cast_signed(),
            size: numbers[4],
            moment: numbers[5],
            waited: numbers[6] != 0,
            buffer: numbers[7] != 0,
        }
    }

    /// Its numbers.
    pub fn numbers(self) -> [u64; CALL_NUMBERS]
        ensures { result ≡ numbers_of self }
    {
        [
            self.kind.number(),
            u64::from(self.number.cast_unsigned()),
            u64::from(self.flags),
            self.mtype.cast_unsigned(),
            self.size,
            self.moment,
            u64::from(self.waited),
            u64::from(self.buffer),
        ]
    }

    /// Whether it has this flag.
    pub fn has(self, flag: u32) -> bool
        ensures { result ≡ has self.flags flag }
    {
        self.flags & flag != 0
    }
}

/// The low 32 bits.
fn low(number: u64) -> u32
    ensures { result ≡ number % 2 ^ 32 }
{
    (number % (1 << 32)) as u32
}
