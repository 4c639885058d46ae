// `allocate_data`, for tests and the benchmark: unit after unit of one call, with numbers of 64 bits, little-endian, in lent bytes.
ghost use Rattle.std.specs.Prelude.{◌≡◌, ◌+◌, ◌*◌, ◌≤◌, length};
ghost use Rattle.rules.specs.Sizes.{unit_blocks, most_blocks};

use super::MAP_BYTES;
use allocation::{Allocated, Cursors, Taken};
use format::sizes::UNIT_BLOCKS;

// What is past the highest block taken in each of four groups.
fn cursors_of(past: &[u8]) -> Cursors
    requires { length past.now ≡ 32 }
{
    let a = words::le64(past, 0);
    let b = words::le64(past, 8);
    let c = words::le64(past, 16);
    let d = words::le64(past, 24);
    let past = [a, b, c, d];
    Cursors { past }
}

// Four numbers from `at` on.
fn put_four(out: &mut [u8], at: usize, a: u64, b: u64, c: u64, d: u64)
    requires { at + 32 ≤ length out.old }
{
    words::put_le64(out, at, a);
    words::put_le64(out, at + 8, b);
    words::put_le64(out, at + 16, c);
    words::put_le64(out, at + 24, d);
}

// Sixteen blocks, of which the first are the unit's.
fn put_blocks(out: &mut [u8], t: Taken)
    requires { 128 ≤ length out.old }
{
    let a = t.blocks;
    put_four(out, 0, a[0], a[1], a[2], a[3]);
    put_four(out, 32, a[4], a[5], a[6], a[7]);
    put_four(out, 64, a[8], a[9], a[10], a[11]);
    put_four(out, 96, a[12], a[13], a[14], a[15]);
}

// The answer in lent bytes: sixteen blocks and then the hint, and the cursors.
fn put_answer(past: &mut [u8], out: &mut [u8], r: Allocated)
    requires past_len { length past.old ≡ 32 }
    requires out_len { length out.old ≡ 136 }
{
    let t = r.taken;
    put_blocks(out, t);
    words::put_le64(out, 128, r.hint);
    let c = r.cursors;
    let p = c.past;
    put_four(past, 0, p[0], p[1], p[2], p[3]);
}

// `allocate_data` for one unit, or where `scattered` is asked for the rule of document 01 alone, as it was before W-208: the blocks that the search finds
// first, whether there is a run or not. Their blocks are set in the map.
fn unit(
    map: &mut [u8],
    blocks: u64,
    hint: u64,
    cursors: Cursors,
    want: usize,
    scattered: bool,
) -> Allocated
    requires { (blocks ≤ most_blocks) × (blocks ≤ 8 * length map.old) × (want ≤ unit_blocks) }
{
    if scattered {
        let t = allocation::found_first(map, blocks, hint, cursors, want);
        allocation::mark(map, t);
        return allocation::answer(t, hint, cursors);
    }
    allocation::allocate_unit(map, blocks, hint, cursors, want)
}

// The blocks of one unit: how many there are, 17 where they are fewer than wanted, or 18 where the arguments do not fit.
fn allocate(
    map: &mut [u8],
    blocks: u64,
    hint: u64,
    past: &mut [u8],
    want: usize,
    out: &mut [u8],
    scattered: bool,
) -> usize {
    if MAP_BYTES < map.len()
        || ((8 * map.len()) as u64) < blocks
        || UNIT_BLOCKS < want
        || past.len() != 32
        || out.len() != 136
    {
        return 18;
    }
    let r = unit(map, blocks, hint, cursors_of(past), want, scattered);
    put_answer(past, out, r);
    if want <= r.taken.count { want } else { 17 }
}

// The blocks of one unit.
#[unsafe(no_mangle)]
pub extern "C" fn sangueko_probe_allocate(
    map: &mut [u8],
    blocks: u64,
    hint: u64,
    past: &mut [u8],
    want: usize,
    out: &mut [u8],
) -> usize {
    allocate(map, blocks, hint, past, want, out, false)
}

// The same by the rule of document 01 alone: what W-208 costs is measured against it.
#[unsafe(no_mangle)]
pub extern "C" fn sangueko_probe_allocate_scattered(
    map: &mut [u8],
    blocks: u64,
    hint: u64,
    past: &mut [u8],
    want: usize,
    out: &mut [u8],
) -> usize {
    allocate(map, blocks, hint, past, want, out, true)
}
