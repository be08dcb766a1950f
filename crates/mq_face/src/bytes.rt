//! Little-endian encoding of eight numbers, as which calls and answers are passed to and from C.

ghost use Rattle.std.specs.Prelude.{◌≡◌, ◌+◌, ◌*◌, ◌≤◌, length};
ghost use Rattle.mq_face.specs.Bytes.{bytes_of_numbers, number_at, numbers_in};

/// How many bytes eight numbers are.
pub const EIGHT_BYTES: usize = 64;

/// The bytes of eight numbers, one behind the other, of each the lowest first.
pub fn to_bytes(numbers: [u64; 8]) -> [u8; EIGHT_BYTES]
    ensures { result ≡ bytes_of_numbers numbers }
{
    let mut bytes = [0; EIGHT_BYTES];
    for i in 0..8 {
        bytes[8 * i..8 * i + 8].copy_from_slice(&numbers[i].to_le_bytes());
    }
    bytes
}

/// The number at place `i` of those that the bytes are.
fn number_at(bytes: &[u8; EIGHT_BYTES], i: usize) -> u64
    requires { 8 * i + 8 ≤ length bytes.now }
    ensures { result ≡ number_at bytes.now i }
{
    let mut word = [0; 8];
    word.copy_from_slice(&bytes[8 * i..8 * i + 8]);
    u64::from_le_bytes(word)
}

/// The eight numbers that the bytes are.
pub fn from_bytes(bytes: &[u8; EIGHT_BYTES]) -> [u64; 8]
    ensures { result ≡ numbers_in bytes.now }
{
    [
        number_at(bytes, 0),
        number_at(bytes, 1),
        number_at(bytes, 2),
        number_at(bytes, 3),
        number_at(bytes, 4),
        number_at(bytes, 5),
        number_at(bytes, 6),
        number_at(bytes, 7),
    ]
}
