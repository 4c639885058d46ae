// The lowest run of clear bits in a map: so many, sixteen at most, side by side between two places.
//
// Words of 64 bits are read every 48, so that sixteen bits from any of a word's first 48 on lie in it and nothing has to be carried from word to
// word. In a word all places at which such a run begins are found at once: the word of the places at which runs of one bit begin is its
// inverse, and a run of a + s bits, s at most a, is two of a that begin s apart.
//
// Whether there are sixteen at all is told before that, from each sixteen bits of the map and the next: a whole unit wants so many, and where the map has
// only shorter runs all of it has to be looked at.
#![tactic(auto)]

ghost use Rattle.std.specs.Prelude.{◌≡◌, ◌+◌, ◌*◌, ◌/◌, ◌%◌, ◌^◌, ◌<◌, ◌≤◌, ◌||◌, length};
ghost use Rattle.bitmap.specs.Map.{InMap};
ghost use Rattle.runs.specs.Runs.{Starts, LastSet, Half, Meets, AnyMeets, Passed, Lowest};

// A word with every bit set.
const ONES: u64 = u64::MAX;

// Words are read so many bits apart.
const APART: usize = 48;

// The bits of a word at which `n` clear ones begin that lie in it.
fn starts(w: u64, n: usize) -> u64
    requires { (0 < n) × (n ≤ 16) }
    ensures { Starts w n result }
{
    let s = n / 2;
    let t = (n - s) / 2;
    let u = (n - s - t) / 2;
    let v = (n - s - t - u) / 2;
    let one = !w;
    let two = one & (one >> v);
    let four = two & (two >> u);
    let eight = four & (four >> t);
    eight & (eight >> s)
}

// The highest set bit of the `n` from `p` on.
// Kept: a loop and not `rfind`, which was tried: the library has no lemma on `rfind` over a range, and the loop is proved without an answer.
fn last_set(map: &[u8], p: usize, n: usize) -> Option<usize>
    requires { (p + n ≤ 8 * length map.now) × (p + n < 2 ^ 64) }
    ensures { LastSet map.now p (p + n) result }
{
    for k in (p..p + n).rev() {
        if bitmap::get(map, k) {
            return Some(k);
        }
    }
    None
}

// The lowest run, bit by bit: of a window that is not clear all are passed over up to its highest set bit.
fn run_bits(map: &[u8], from: usize, end: usize, n: usize) -> Option<usize>
    requires { InMap map.now from end × (0 < n) }
    ensures { Lowest map.now n from end result }
{
    let mut p = from;
    // Kept: a `while`, as the place jumps to behind the highest set bit.
    while n <= end - p {
        let Some(k) = last_set(map, p, n) else {
            return Some(p);
        };
        p = k + 1;
    }
    None
}

// The lowest run, by words. A word with every bit set is passed over whole.
// Kept: a `while`, as the next place is 64 bits on or 48, as the word says.
fn run_words(map: &[u8], from: usize, end: usize, n: usize) -> Option<usize>
    requires { InMap map.now from end × (from % 8 ≡ 0) × (0 < n) × (n ≤ 16) }
    ensures { Lowest map.now n from end result }
{
    let mut p = from;
    while 64 <= end - p {
        let w = words::le64(map, p / 8);
        if w == ONES {
            p += 64;
        } else {
            let m = starts(w, n);
            if m != 0 {
                return Some(p + bitmap::first(m, true) as usize);
            }
            p += APART;
        }
    }
    run_bits(map, p, end, n)
}

// The sixteen bits of the map from bit 16 k on.
fn half(map: &[u8], k: usize) -> u16
    requires { 2 * k + 2 ≤ length map.now }
    ensures { Half map.now k result }
{
    u16::from_le_bytes([map[2 * k], map[2 * k + 1]])
}

// Zero where sixteen clear bits lie over two halves: for some m the bits from m on of the first and those below m of the second. The second and its
// negative have together the bits from its lowest set one on.
fn meets(x: u16, z: u16) -> u16
    ensures { Meets x z result }
{
    x & (z | 0u16.wrapping_sub(z))
}

// Whether that is so of any half of the map from `i` to `end` and the next. The loop has no exit, so that the compiler can take several at once.
// Kept: a loop and not `any`: tried, it takes ten times as long over a map without one, where docs/SPEED.md asks for three.
fn any_meets(map: &[u8], i: usize, end: usize) -> bool
    requires { 2 * end + 2 ≤ length map.now }
    ensures { AnyMeets map.now i end result }
{
    let mut any = false;
    for k in i..end {
        any |= meets(half(map, k), half(map, k + 1)) == 0;
    }
    any
}

// A place before which no sixteen clear bits begin that end before `end`: `from` itself where there may be some. Halves are taken sixteen at a time, as
// the compiler takes them, and the few that are left over are left to the words.
fn pass_halves(map: &[u8], from: usize, end: usize) -> usize
    requires { (from + 32 ≤ end) × (end ≤ 8 * length map.now) × (from % 16 ≡ 0) }
    ensures { Passed map.now 16 from end result × (result % 8 ≡ 0) }
{
    let i = from / 16;
    if half(map, i) == 0 {
        return from;
    }
    let last = i + (end / 16 - 1 - i) / 16 * 16;
    if any_meets(map, i, last) {
        return from;
    }
    16 * last
}

// The first place from `from` on at which `n` clear bits begin that end before `end`. Whether there are sixteen, as a whole unit wants, is told by
// halves before they are sought by words.
pub fn lowest_run(map: &[u8], from: usize, end: usize, n: usize) -> Option<usize>
    requires { InMap map.now from end × (from % 16 ≡ 0) × (0 < n) × (n ≤ 16) }
    ensures { Lowest map.now n from end result }
{
    if n == 16 && 32 <= end - from {
        return run_words(map, pass_halves(map, from, end), end, n);
    }
    run_words(map, from, end, n)
}
