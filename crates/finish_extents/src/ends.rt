// What is left of old extents at the two ends of the stretch that a change exchanges.
ghost use Rattle.std.specs.Prelude.{◌≡◌, true, ◌++◌, ◌+◌, ◌*◌, ◌^◌, ◌≤◌, ◌<◌, min, max, length, drop};
ghost use Rattle.rules.specs.Sizes.{most_blocks};
ghost use Rattle.rules.specs.Extent.{extent_bytes, extent_end};
ghost use Rattle.rules.specs.Finish.{up_to, from};
ghost use Rattle.format.specs.Records.{extent_of};
ghost use Rattle.book.specs.Places.{leading, extent_under};
ghost use Rattle.mapping.specs.Entries.{extents_in, ExtentsRight};
ghost use Rattle.finish_extents.specs.Stretch.{before, reaches_past, left_of, rest_of, reaches_at, Made, Closes};

use super::made::push;
use format::extent::{EXTENT_BYTES, Extent};

// The part of `e` before its file's block `block`.
fn up_to(e: Extent, block: u64) -> Extent
    requires { e.logical < block }
    ensures { extent_of result ≡ up_to (extent_of e) (min (extent_end (extent_of e)) block) }
{
    if e.ends_by(block) {
        return e;
    }
    Extent {
        object: e.object,
        logical: e.logical,
        physical: e.physical,
        count: (block - e.logical) as u32,
    }
}

// The part of `e` before the file's block `block`; all of it where it is of another file than that of `object`.
fn cut_before(e: Extent, object: u64, block: u64) -> Extent
    requires { extent_under object block (extent_of e) ≡ true }
    ensures { extent_of result ≡ before object block (extent_of e) }
{
    if e.object != object {
        return e;
    }
    up_to(e, block)
}

// Whether `e` is of the file of `object` and ends behind the file's block `block`.
#[tactic(auto, unfolding(crate::specs::Stretch::reaches_past, format::specs::Records::extent_of))]
fn reaches(e: Extent, object: u64, block: u64) -> bool
    ensures { result ≡ reaches_past object block (extent_of e) }
{
    e.object == object && !e.ends_by(block)
}

// The part of `e` from its file's block `block` on.
fn cut_from(e: Extent, block: u64) -> Extent
    requires logical_le_block { (e.logical ≤ block) × (block < e.logical + e.count) }
    requires count_bound { e.physical + e.count < 2 ^ 64 }
    ensures { extent_of result ≡ from (extent_of e) (max (extent_of e).logical block) }
{
    let gone = block - e.logical;
    Extent {
        object: e.object,
        logical: block,
        physical: e.physical + gone,
        count: e.count - gone as u32,
    }
}

// What the extent in front of place `i` has before the file's block `block`, first in the buffer. With it or without, so many are in it.
pub fn push_left(
    extents: &[u8],
    n: usize,
    i: usize,
    object: u64,
    block: u64,
    made: &mut [u8],
) -> usize
    requires n_in_bounds { (extent_bytes * n ≤ length extents.now) × (i ≤ n) × (extent_bytes ≤ length made.old) }
    requires i_value { i ≡ leading (extent_under object block) (extents_in n extents.now) }
    ensures { (result ≤ 1) × Made result made.new (left_of object block (extents_in n extents.now) i) }
{
    if i == 0 {
        return 0;
    }
    let e = format::extent::decode_extent(extents, EXTENT_BYTES * (i - 1));
    push(made, 0, cut_before(e, object, block))
}

// How many extents are in the buffer after what stands behind the stretch, and the place of the book from which on all stay.
#[derive(Clone, Copy)]
pub struct Closed {
    pub count: usize,
    pub next: usize,
}

// The extent at place `j`, where there is one, behind the `count` that were made.
fn push_next(extents: &[u8], n: usize, j: usize, made: &mut [u8], count: usize) -> Closed
    requires n_in_bounds { (extent_bytes * n ≤ length extents.now) × (j ≤ n) }
    requires count_in_bounds { extent_bytes * (count + 1) ≤ length made.old }
    ensures count_bound { (result.count ≤ count + 1) × (j ≤ result.next) × (result.next ≤ n) }
    ensures closes { Closes (drop j (extents_in n extents.now)) (extents_in n extents.now) count made.old result.count made.new result.next }
{
    if j == n {
        return Closed {
            count: count,
            next: n,
        };
    }
    let e = format::extent::decode_extent(extents, EXTENT_BYTES * j);
    let more = push(made, count, e);
    Closed {
        count: more,
        next: j + 1,
    }
}

// Whether the extent in front of place `j` is of the file of `object` and ends behind the file's block `block`.
fn reaches_at(extents: &[u8], n: usize, j: usize, object: u64, block: u64) -> bool
    requires { (extent_bytes * n ≤ length extents.now) × (j ≤ n) }
    ensures { result ≡ reaches_at object block (extents_in n extents.now) j }
{
    if j == 0 {
        return false;
    }
    let e = format::extent::decode_extent(extents, EXTENT_BYTES * (j - 1));
    reaches(e, object, block)
}

// What that extent has from the block on, behind the `count` that were made.
fn push_rest(
    extents: &[u8],
    n: usize,
    j: usize,
    object: u64,
    block: u64,
    made: &mut [u8],
    count: usize,
) -> usize
    requires extents_right { ExtentsRight most_blocks n extents.now × (j ≤ n) }
    requires count_in_bounds { extent_bytes * (count + 1) ≤ length made.old }
    requires j_value { (j ≡ leading (extent_under object block) (extents_in n extents.now)) × (reaches_at object block (extents_in n extents.now) j ≡ true) }
    ensures { (result ≤ count + 1) × Closes (rest_of object block (extents_in n extents.now) j ++ drop j (extents_in n extents.now)) (extents_in n extents.now) count made.old result made.new j }
{
    let e = format::extent::decode_extent(extents, EXTENT_BYTES * (j - 1));
    push(made, count, cut_from(e, block))
}

// The same where there is such an extent, and else the next, if there is one.
pub fn push_right(
    extents: &[u8],
    n: usize,
    j: usize,
    object: u64,
    block: u64,
    made: &mut [u8],
    count: usize,
) -> Closed
    requires extents_right { ExtentsRight most_blocks n extents.now × (j ≤ n) }
    requires count_in_bounds { extent_bytes * (count + 1) ≤ length made.old }
    requires j_value { j ≡ leading (extent_under object block) (extents_in n extents.now) }
    ensures count_bound { (result.count ≤ count + 1) × (j ≤ result.next) × (result.next ≤ n) }
    ensures closes { Closes (rest_of object block (extents_in n extents.now) j ++ drop j (extents_in n extents.now)) (extents_in n extents.now) count made.old result.count made.new result.next }
{
    if reaches_at(extents, n, j, object, block) {
        let more = push_rest(extents, n, j, object, block, made, count);
        return Closed {
            count: more,
            next: j,
        };
    }
    push_next(extents, n, j, made, count)
}
