// A range of bytes: copied, filled with zeros, tested for zeros, and moved up or down within its slice.
ghost use Rattle.std.specs.Prelude.{◌≡◌, ◌+◌, ◌-◌, ◌≤◌, length, replicate};
ghost use Rattle.rules.specs.Bytes.{part, patch, all_zero};

// `x` into `s` from `at` on.
pub fn copy(s: &mut [u8], at: usize, x: &[u8])
    requires { at + length x.now ≤ length s.old }
    ensures { s.new ≡ patch s.old at x.now }
{
    // Kept: a loop, as the archive may call memcpy and memset alone, and `copy_from_slice` would call memmove.
    for (i, b) in x.iter().enumerate() {
        s[at + i] = *b;
    }
}

// The `n` bytes of `x` from `from` on into `s` from `at` on.
pub fn copy_part(s: &mut [u8], at: usize, x: &[u8], from: usize, n: usize)
    requires n_in_bounds { from + n ≤ length x.now }
    requires n_in_bounds_2 { at + n ≤ length s.old }
    ensures { s.new ≡ patch s.old at (part from n x.now) }
{
    copy(s, at, &x[from..from + n]);
}

// Zeros from `a` to `e`.
pub fn zero(s: &mut [u8], a: usize, e: usize)
    requires { (a ≤ e) × (e ≤ length s.old) }
    ensures { s.new ≡ patch s.old a (replicate (e - a) 0) }
{
    s[a..e].fill(0);
}

// Whether all from `a` to `e` is zero.
pub fn is_zero(s: &[u8], a: usize, e: usize) -> bool
    requires { (a ≤ e) × (e ≤ length s.now) }
    ensures { result ≡ all_zero (part a (e - a) s.now) }
{
    // A fold and not `all`, as an exit at each byte would keep the compiler from taking many at a time.
    s[a..e].iter().fold(0, |any, x| any | *x) == 0
}

// The bytes from `a` to `e` go `k` places up. The last goes first, so that none is overwritten before it is moved.
pub fn move_up(s: &mut [u8], a: usize, e: usize, k: usize)
    requires { (a ≤ e) × (e + k ≤ length s.old) }
    ensures { s.new ≡ patch s.old (a + k) (part a (e - a) s.old) }
{
    // Kept: a loop, as the archive may call memcpy and memset alone, and `copy_within` would call memmove.
    for j in (a..e).rev() {
        s[j + k] = s[j];
    }
}

// The bytes from `a` to `e` go `k` places down.
pub fn move_down(s: &mut [u8], a: usize, e: usize, k: usize)
    requires { (k ≤ a) × (a ≤ e) × (e ≤ length s.old) }
    ensures { s.new ≡ patch s.old (a - k) (part a (e - a) s.old) }
{
    // Kept: a loop, as the archive may call memcpy and memset alone, and `copy_within` would call memmove.
    for i in a..e {
        s[i - k] = s[i];
    }
}
