// A map of bits: bit n is bit n mod 8 of byte n div 8, counted from the low bit.
//
// A range of 64 bits or more is taken in three parts: bit by bit to a byte's edge, then in words of 64 bits, or in bytes where it is filled, then what
// is left bit by bit. The words have loops of their own, with no test in them but the one that is asked for, so that they run at the speed of memory.
//
// `bitmap_pairs` has what takes two maps.
#![tactic(auto)]

ghost use Rattle.std.specs.Prelude.{◌≡◌, true, false, not, ◌+◌, ◌-◌, ◌*◌, ◌%◌, ◌^◌, ◌≤◌, ◌<◌, length};
ghost use Rattle.rules.specs.Lists.{pick◌then◌else◌, all, count, range};
ghost use Rattle.rules.specs.Bytes.{bit_set};
ghost use Rattle.bitmap.specs.Map.{InMap, with_bit, with_bits, First, Next, NextBefore};

// Whether bit `n` is set.
pub fn get(m: &[u8], n: usize) -> bool
    requires { n < 8 * length m.now }
    ensures { result ≡ bit_set m.now n }
{
    (m[n / 8] >> (n % 8)) % 2 == 1
}

// A byte with its bit `k` as asked.
fn with_bit(b: u8, k: usize, value: bool) -> u8
    requires { k < 8 }
    ensures { result ≡ with_bit b k value }
{
    if value {
        return b | (1u8 << k);
    }
    b & !(1u8 << k)
}

// Bit `n` as asked.
pub fn put(m: &mut [u8], n: usize, value: bool)
    requires { n < 8 * length m.old }
    ensures { m.new ≡ with_bits value m.old n (n + 1) }
{
    m[n / 8] = with_bit(m[n / 8], n % 8, value);
}

// Bit `n` set.
// Kept: `set` and `clear` are two names of `put`: a call by a name reads plainer than one by `true` or `false`.
pub fn set(m: &mut [u8], n: usize)
    requires { n < 8 * length m.old }
    ensures { m.new ≡ with_bits true m.old n (n + 1) }
{
    put(m, n, true);
}

// Bit `n` clear.
pub fn clear(m: &mut [u8], n: usize)
    requires { n < 8 * length m.old }
    ensures { m.new ≡ with_bits false m.old n (n + 1) }
{
    put(m, n, false);
}

// The bits from `a` to `e` as asked, bit by bit.
fn fill_bits(m: &mut [u8], a: usize, e: usize, value: bool)
    requires { InMap m.old a e }
    ensures { m.new ≡ with_bits value m.old a e }
{
    for n in a..e {
        put(m, n, value);
    }
}

// The bits from `a` to `e`, both at a byte's edge, as asked, whole bytes.
fn fill_bytes(m: &mut [u8], a: usize, e: usize, value: bool)
    requires { InMap m.old a e × (a % 8 ≡ 0) × (e % 8 ≡ 0) }
    ensures { m.new ≡ with_bits value m.old a e }
{
    m[a / 8..e / 8].fill(if value { u8::MAX } else { 0 });
}

// The bits from `a` to `e` as asked.
fn fill(m: &mut [u8], a: usize, e: usize, value: bool)
    requires { InMap m.old a e }
    ensures { m.new ≡ with_bits value m.old a e }
{
    if e - a < 64 {
        fill_bits(m, a, e, value);
        return;
    }
    let s = a.next_multiple_of(8);
    let t = e - e % 8;
    fill_bits(m, a, s, value);
    fill_bytes(m, s, t, value);
    fill_bits(m, t, e, value);
}

// The bits from `a` to `e` set.
// Kept: `set_range` and `clear_range` are two names of `fill`, as `set` and `clear` of `put`.
pub fn set_range(m: &mut [u8], a: usize, e: usize)
    requires { InMap m.old a e }
    ensures { m.new ≡ with_bits true m.old a e }
{
    fill(m, a, e, true);
}

// The bits from `a` to `e` clear.
pub fn clear_range(m: &mut [u8], a: usize, e: usize)
    requires { InMap m.old a e }
    ensures { m.new ≡ with_bits false m.old a e }
{
    fill(m, a, e, false);
}

// The first bit of a word that is as asked, or 64: the first clear one is the first set one of the inverted word.
// Kept: 64 and no `Option`, as the library's `trailing_zeros` answers: who knows that there is a bit has nothing to unwrap.
pub fn first(w: u64, value: bool) -> u32
    ensures { First w value result }
{
    if value {
        return u64::trailing_zeros(w);
    }
    u64::trailing_zeros(!w)
}

// The first bit from `a` on and before `e` that is as asked, bit by bit.
fn next_bits(m: &[u8], a: usize, e: usize, value: bool) -> Option<usize>
    requires { InMap m.now a e }
    ensures { NextBefore m.now value a e result }
{
    (a..e).find(|&n| get(m, n) == value)
}

// The same in the word that begins at bit `a`, a byte's edge.
fn next_word(m: &[u8], a: usize, value: bool) -> Option<usize>
    requires { (a + 64 ≤ 8 * length m.now) × (a + 64 < 2 ^ 64) × (a % 8 ≡ 0) }
    ensures { NextBefore m.now value a (a + 64) result }
{
    let k = first(words::le64(m, a / 8), value) as usize;
    if k < 64 { Some(a + k) } else { None }
}

// A word of 64 bits, all as asked.
fn word_of(value: bool) -> u64
    ensures { result ≡ (pick value then 0xffffffffffffffff else 0) }
{
    if value {
        return u64::MAX;
    }
    0
}

// The same from a byte's edge on, whole pairs of words: one compare for each word that has no bit as asked. Two words a turn, as a turn has its own cost;
// and a word is looked into where it is found, as one that is only compared with zero is read byte by byte.
fn next_pairs(m: &[u8], a: usize, e: usize, value: bool) -> Option<usize>
    requires { InMap m.now a e × (a % 8 ≡ 0) × ((e - a) % 128 ≡ 0) }
    ensures { NextBefore m.now value a e result }
{
    let none = word_of(!value);
    for k in 0..(e - a) / 128 {
        let n = a + 128 * k;
        let w = words::le64(m, n / 8);
        if w != none {
            return Some(n + first(w, value) as usize);
        }
        let x = words::le64(m, (n + 64) / 8);
        if x != none {
            return Some(n + 64 + first(x, value) as usize);
        }
    }
    None
}

// The same from a byte's edge on, whole words: an odd one first, then pairs.
fn next_words(m: &[u8], a: usize, e: usize, value: bool) -> Option<usize>
    requires { InMap m.now a e × (a % 8 ≡ 0) × ((e - a) % 64 ≡ 0) }
    ensures { NextBefore m.now value a e result }
{
    if (e - a) % 128 == 0 {
        return next_pairs(m, a, e, value);
    }
    next_word(m, a, value).or_else(|| next_pairs(m, a + 64, e, value))
}

// The first bit from `a` on and before `e` that is as asked.
fn next(m: &[u8], a: usize, e: usize, value: bool) -> Option<usize>
    requires { InMap m.now a e }
    ensures { NextBefore m.now value a e result }
{
    if e - a < 64 {
        return next_bits(m, a, e, value);
    }
    let s = a.next_multiple_of(8);
    let t = e - (e - s) % 64;
    next_bits(m, a, s, value)
        .or_else(|| next_words(m, s, t, value))
        .or_else(|| next_bits(m, t, e, value))
}

// The first set bit at or after `a`, or `e` if none before it is.
// Kept: `e` and no `Option`: but for `allocation` each caller goes on at the end where there is no such bit, and would write `unwrap_or(e)`.
// Kept: `next_set` and `next_clear` are two names of `next`, as `set` and `clear` of `put`.
pub fn next_set(m: &[u8], a: usize, e: usize) -> usize
    requires { InMap m.now a e }
    ensures { Next m.now true a e result }
{
    next(m, a, e, true).unwrap_or(e)
}

// The first clear bit at or after `a`, or `e` if none before it is.
pub fn next_clear(m: &[u8], a: usize, e: usize) -> usize
    requires { InMap m.now a e }
    ensures { Next m.now false a e result }
{
    next(m, a, e, false).unwrap_or(e)
}

// Whether every bit from `a` to `e` is set.
// Kept: `all_set` and `all_clear` are two names of a test of `next`, as `set` and `clear` of `put`.
pub fn all_set(m: &[u8], a: usize, e: usize) -> bool
    requires { InMap m.now a e }
    ensures { result ≡ all (bit_set m.now) (range a (e - a)) }
{
    next(m, a, e, false).is_none()
}

// Whether every bit from `a` to `e` is clear.
pub fn all_clear(m: &[u8], a: usize, e: usize) -> bool
    requires { InMap m.now a e }
    ensures { result ≡ all (λ k. not (bit_set m.now k)) (range a (e - a)) }
{
    next(m, a, e, true).is_none()
}

// How many bits from `a` to `e` are set, bit by bit.
fn count_bits(m: &[u8], a: usize, e: usize) -> usize
    requires { InMap m.now a e }
    ensures { result ≡ count (bit_set m.now) (range a (e - a)) }
{
    (a..e).filter(|&n| get(m, n)).count()
}

// The same from a byte's edge on, whole words. The loop has no exit, so that the compiler can count several words at once.
fn count_words(m: &[u8], a: usize, e: usize) -> usize
    requires { InMap m.now a e × (a % 8 ≡ 0) × ((e - a) % 64 ≡ 0) }
    ensures { result ≡ count (bit_set m.now) (range a (e - a)) }
{
    let mut total: usize = 0;
    for k in 0..(e - a) / 64 {
        total += u64::count_ones(words::le64(m, a / 8 + 8 * k)) as usize;
    }
    total
}

// How many bits from `a` to `e` are set.
pub fn count_set(m: &[u8], a: usize, e: usize) -> usize
    requires { InMap m.now a e }
    ensures { result ≡ count (bit_set m.now) (range a (e - a)) }
{
    if e - a < 64 {
        return count_bits(m, a, e);
    }
    let s = a.next_multiple_of(8);
    let t = e - (e - s) % 64;
    count_bits(m, a, s) + count_words(m, s, t) + count_bits(m, t, e)
}
