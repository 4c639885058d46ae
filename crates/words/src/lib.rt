// Numbers in a byte slice: both byte orders, at 64 and 32 bits, read and written at a place.
//
// `range` has what is done to a range of bytes.
// Kept: a function for each width and order, as the library's conversions are methods of u32 and of u64: a generic
// one would stand on a trait of our own, with the same eight bodies.
#![tactic(auto)]

pub mod range;

ghost use Rattle.std.specs.Prelude.{◌≡◌, ◌+◌, ◌≤◌, length};
ghost use Rattle.rules.specs.Bytes.{be, le, be_digits, le_digits, part, patch};

// The N bytes at `at`. The slice is cut to N bytes first: its length is then known, and the compiler needs no test for
// whether there is a first chunk.
fn array_at<const N: usize>(s: &[u8], at: usize) -> [u8; N]
    requires { at + N ≤ length s.now }
    ensures { result ≡ part at N s.now }
{
    *s[at..at + N].first_chunk().unwrap()
}

// `bytes` at `at`.
fn put_array<const N: usize>(s: &mut [u8], at: usize, bytes: [u8; N])
    requires { at + N ≤ length s.old }
    ensures { s.new ≡ patch s.old at bytes.entry }
{
    s[at..at + N].copy_from_slice(&bytes);
}

// The big-endian number in the four bytes at `at`.
pub fn be32(s: &[u8], at: usize) -> u32
    requires { at + 4 ≤ length s.now }
    ensures { result ≡ be (part at 4 s.now) }
{
    u32::from_be_bytes(array_at::<4>(s, at))
}

// The big-endian number in the eight bytes at `at`.
pub fn be64(s: &[u8], at: usize) -> u64
    requires { at + 8 ≤ length s.now }
    ensures { result ≡ be (part at 8 s.now) }
{
    u64::from_be_bytes(array_at::<8>(s, at))
}

// The little-endian number in the four bytes at `at`.
pub fn le32(s: &[u8], at: usize) -> u32
    requires { at + 4 ≤ length s.now }
    ensures { result ≡ le (part at 4 s.now) }
{
    u32::from_le_bytes(array_at::<4>(s, at))
}

// The little-endian number in the eight bytes at `at`.
pub fn le64(s: &[u8], at: usize) -> u64
    requires { at + 8 ≤ length s.now }
    ensures { result ≡ le (part at 8 s.now) }
{
    u64::from_le_bytes(array_at::<8>(s, at))
}

// `v` into the four bytes at `at`, big-endian.
pub fn put_be32(s: &mut [u8], at: usize, v: u32)
    requires { at + 4 ≤ length s.old }
    ensures { s.new ≡ patch s.old at (be_digits 4 v) }
{
    put_array::<4>(s, at, v.to_be_bytes());
}

// `v` into the eight bytes at `at`, big-endian.
pub fn put_be64(s: &mut [u8], at: usize, v: u64)
    requires { at + 8 ≤ length s.old }
    ensures { s.new ≡ patch s.old at (be_digits 8 v) }
{
    put_array::<8>(s, at, v.to_be_bytes());
}

// `v` into the four bytes at `at`, little-endian.
pub fn put_le32(s: &mut [u8], at: usize, v: u32)
    requires { at + 4 ≤ length s.old }
    ensures { s.new ≡ patch s.old at (le_digits 4 v) }
{
    put_array::<4>(s, at, v.to_le_bytes());
}

// `v` into the eight bytes at `at`, little-endian.
pub fn put_le64(s: &mut [u8], at: usize, v: u64)
    requires { at + 8 ≤ length s.old }
    ensures { s.new ≡ patch s.old at (le_digits 8 v) }
{
    put_array::<8>(s, at, v.to_le_bytes());
}
