// Two maps of the same blocks, compared in words of 64 bits. A map is of whole words here.
//
// A word of the bits that pass, or of those that fail, is made of a word of each map. A loop puts these words together and tests once, at its end: an exit at
// each word would keep the compiler from taking several at a time. Words that were just read are put together by `&`: by `|` the compiler would take the bytes
// that a word is read from for more parts of the same sum, and read them one by one.
//
// `difference` takes the bits of one map from another.
// Kept: two slices and no struct, as `intake_maps` has them beside the reserved count and `store` as buffers: it would be built at each call.
#![tactic(auto)]

pub mod difference;

ghost use Rattle.std.specs.Prelude.{◌≡◌, not, ◌+◌, ◌-◌, ◌*◌, ◌%◌, ◌≤◌, ◌<◌, length};
ghost use Rattle.rules.specs.Lists.{all, range};
ghost use Rattle.rules.specs.Bytes.{bit_set};
ghost use Rattle.bitmap.specs.Map.{bit_of};
ghost use Rattle.bitmap_pairs.specs.Pair.{SameWords, only, inside, Holds};

// A word with every bit set.
const ONES: u64 = u64::MAX;

// Whether the `n` bits of a word from bit `s` on are set.
fn bits_set(w: u64, s: usize, n: usize) -> bool
    requires { (0 < n) × (s + n ≤ 64) }
    ensures { result ≡ all (bit_of w) (range s n) }
{
    (w >> s) << (64 - n) == ONES << (64 - n)
}

// The bits of the word at byte `i` that are set in `m` and clear in `x`.
fn only_word(m: &[u8], x: &[u8], i: usize) -> u64
    requires { (i + 8 ≤ length m.now) × (i + 8 ≤ length x.now) }
    ensures { Holds (only m.now x.now) (8 * i) result }
{
    words::le64(m, i) & !words::le64(x, i)
}

// The bits of the word at byte `i` that are set in `x` and clear in `m`: the maps the other way round.
fn not_inside(m: &[u8], x: &[u8], i: usize) -> u64
    requires { (i + 8 ≤ length m.now) × (i + 8 ≤ length x.now) }
    ensures { Holds (λ k. not (inside m.now x.now k)) (8 * i) result }
{
    only_word(x, m, i)
}

// Whether the `n` bits from `a` on, all of one word, are set in `m` and clear in `x`: the short way of `all_only`, for who asks of many short ranges.
pub fn only_in_word(m: &[u8], x: &[u8], a: usize, n: usize) -> bool
    requires n_nonzero { (0 < n) × (a % 64 + n ≤ 64) }
    requires n_bound { (a + n ≤ 8 * length m.now) × SameWords m.now x.now }
    ensures { result ≡ all (only m.now x.now) (range a n) }
{
    bits_set(only_word(m, x, a / 64 * 8), a % 64, n)
}

// Whether the bits of the words from byte `i` to byte `end` are set in `m` and clear in `x`.
fn only_in_words(m: &[u8], x: &[u8], i: usize, end: usize) -> bool
    requires { (i ≤ end) × (end ≤ length m.now) × ((end - i) % 8 ≡ 0) × (length x.now ≡ length m.now) }
    ensures { result ≡ all (only m.now x.now) (range (8 * i) (8 * (end - i))) }
{
    let mut passed = ONES;
    for k in 0..(end - i) / 8 {
        passed &= only_word(m, x, i + 8 * k);
    }
    passed == ONES
}

// The same from `a` to `e`, which is past the end of `a`'s word: the rest of that word, whole words, and what is left.
fn only_beyond(m: &[u8], x: &[u8], a: usize, e: usize) -> bool
    requires { (a + (64 - a % 64) < e) × (e ≤ 8 * length m.now) × SameWords m.now x.now }
    ensures { result ≡ all (only m.now x.now) (range a (e - a)) }
{
    let n = 64 - a % 64;
    let s = a + n;
    let t = e - e % 64;
    if !only_in_word(m, x, a, n) {
        return false;
    }
    if !only_in_words(m, x, s / 8, t / 8) {
        return false;
    }
    t == e || only_in_word(m, x, t, e - t)
}

// Whether every bit from `a` to `e` is set in `m` and clear in `x`. Most ranges lie in one word.
pub fn all_only(m: &[u8], x: &[u8], a: usize, e: usize) -> bool
    requires { (a ≤ e) × (e ≤ 8 * length m.now) × SameWords m.now x.now }
    ensures { result ≡ all (only m.now x.now) (range a (e - a)) }
{
    if a == e {
        return true;
    }
    if e - a <= 64 - a % 64 {
        return only_in_word(m, x, a, e - a);
    }
    only_beyond(m, x, a, e)
}

// Whether every bit that is set in `x` is set in `m`.
pub fn all_inside(m: &[u8], x: &[u8]) -> bool
    requires { SameWords m.now x.now }
    ensures { result ≡ all (inside m.now x.now) (range 0 (8 * length m.now)) }
{
    let mut failed: u64 = 0;
    for k in 0..m.len() / 8 {
        failed |= not_inside(m, x, 8 * k);
    }
    failed == 0
}

// Whether the bits from `a` on are clear in `m`, whose last word `a` lies in, or ends at.
pub fn clear_behind(m: &[u8], a: usize) -> bool
    requires { (a ≤ 8 * length m.now) × (8 * length m.now < a + 64) × (length m.now % 8 ≡ 0) }
    ensures { result ≡ all (λ k. not (bit_set m.now k)) (range a (8 * length m.now - a)) }
{
    let s = a % 64;
    s == 0 || words::le64(m, a / 64 * 8) >> s == 0
}
