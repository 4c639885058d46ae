// Records of a book exchanged for others: the records behind them are moved once, and what is freed at the end is zeroed.
ghost use Rattle.std.specs.Prelude.{◌≡◌, ◌++◌, ◌+◌, ◌-◌, ◌*◌, ◌≤◌, ◌<◌, length, replicate};
ghost use Rattle.rules.specs.Bytes.{part, patch};
ghost use Rattle.book.specs.Places.{Spliced};

// The bytes from `b` to `e` go down to `t`, and zeros stand behind them up to `e`.
fn move_down(s: &mut [u8], b: usize, e: usize, t: usize)
    requires { (t ≤ b) × (b ≤ e) × (e ≤ length s.old) }
    ensures { s.new ≡ patch s.old t (part b (e - b) s.old ++ replicate (b - t) 0) }
{
    words::range::move_down(s, b, e, b - t);
    words::range::zero(s, t + (e - b), e);
}

// The bytes from `b` to `e` go to `t`; where that is lower, zeros stand behind them up to `e`.
fn move_tail(s: &mut [u8], b: usize, e: usize, t: usize)
    requires { (b ≤ e) × (e ≤ length s.old) × (t + (e - b) ≤ length s.old) }
    ensures { s.new ≡ patch s.old t (part b (e - b) s.old ++ replicate (b - t) 0) }
{
    if t < b {
        move_down(s, b, e, t);
    } else if b < t {
        words::range::move_up(s, b, e, t - b);
    }
}

// The bytes from `a` to `b` exchanged for `x`, in a book whose first `e` bytes are in use.
pub fn splice(s: &mut [u8], a: usize, b: usize, e: usize, x: &[u8])
    requires { (a ≤ b) × (b ≤ e) × (e ≤ length s.old) × (a + length x.now + (e - b) ≤ length s.old) }
    ensures { s.new ≡ patch s.old a (x.now ++ (part b (e - b) s.old ++ replicate (b - (a + length x.now)) 0)) }
{
    move_tail(s, b, e, a + x.len());
    words::range::copy(s, a, x);
}

// In a book of `n` records of `width` bytes, the `k` from place `i` on exchanged for the `m` in `x`.
pub fn splice_records(s: &mut [u8], width: usize, n: usize, i: usize, k: usize, x: &[u8], m: usize)
    requires k_bound { (i + k ≤ n) × (length x.now ≡ width * m) }
    requires n_in_bounds { (width * n ≤ length s.old) × (width * (n - k + m) ≤ length s.old) }
    ensures { Spliced width n i k m s.old x.now s.new }
{
    splice(s, width * i, width * (i + k), width * n, x);
}
