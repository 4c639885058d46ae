// The key of an extent and of a group: the file's object, 8 bytes big-endian, a fixed byte, and a number, 8 bytes big-endian.
ghost use Rattle.std.specs.Prelude.{◌≡◌, ◌∷◌, [], ◌++◌, ◌+◌, ◌≤◌, ◌<◌, length};
ghost use Rattle.rules.specs.Bytes.{be_digits, patch};
ghost use Rattle.rules.specs.Lists.{pair_before};
ghost use Rattle.format.specs.Records.{key_bytes};

// Bytes of a key, and where in it the fixed byte and the number stand.
pub const KEY_BYTES: usize = 17;

pub const TAG_AT: usize = 8;

pub const NUMBER_AT: usize = 9;

// Whether the key of a and b stands before that of c and d: by the first number, and where those are equal by the second.
pub fn before(a: u64, b: u64, c: u64, d: u64) -> bool
    ensures { result ≡ pair_before a b c d }
{
    (a, b) < (c, d)
}

// The bytes of a key, at `at`.
pub fn put_key(s: &mut [u8], at: usize, a: u64, tag: u8, b: u64)
    requires { at + key_bytes ≤ length s.old }
    ensures { s.new ≡ patch s.old at (be_digits 8 a ++ (tag ∷ be_digits 8 b)) }
{
    words::put_be64(s, at, a);
    s[at + TAG_AT] = tag;
    words::put_be64(s, at + NUMBER_AT, b);
}
