// Signed numbers of 32 and of 64 bits in bytes, little endian: the standard library's conversions, under what is said of any width.
#![tactic(auto)]

ghost use Rattle.std.specs.Prelude.{◌≡◌};
ghost use Rattle.little_endian.specs.Holds.{Holds};
ghost use Rattle.little_endian.specs.Bytes.{number, bytes_of};

// The number that four bytes hold.
pub fn read_i32(bytes: [u8; 4]) -> i32
    ensures computed { result ≡ number 4 bytes }
    ensures meant { Holds 4 bytes result }
{
    i32::from_le_bytes(bytes)
}

// The number that eight bytes hold.
pub fn read_i64(bytes: [u8; 8]) -> i64
    ensures computed { result ≡ number 8 bytes }
    ensures meant { Holds 8 bytes result }
{
    i64::from_le_bytes(bytes)
}

// The four bytes that hold a number.
pub fn write_i32(z: i32) -> [u8; 4]
    ensures computed { result ≡ bytes_of 4 z }
    ensures meant { Holds 4 result z }
{
    z.to_le_bytes()
}

// The eight bytes that hold a number.
pub fn write_i64(n: i64) -> [u8; 8]
    ensures computed { result ≡ bytes_of 8 n }
    ensures meant { Holds 8 result n }
{
    n.to_le_bytes()
}
