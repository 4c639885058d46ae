// The extents that a change leaves.
//
// All extents that a change exchanges stand side by side in the book. What is put in their place is made in a lent buffer first, so that its
// number is known while the book is still as it was: `made` has the buffer, `ends` what is left of old extents at the two ends, `runs` the
// blocks between them.
#![tactic(auto)]

ghost use Rattle.std.specs.Prelude.{◌≡◌, ◌++◌, ◌+◌, ◌-◌, ◌*◌, ◌≤◌, length, take, drop};
ghost use Rattle.rules.specs.Sizes.{most_blocks};
ghost use Rattle.rules.specs.Extent.{extent_bytes, encode_extent};
ghost use Rattle.rules.specs.Book.{encode_book};
ghost use Rattle.book.specs.Places.{leading, extent_under};
ghost use Rattle.mapping.specs.Entries.{extents_in, ExtentsRight};
ghost use Rattle.finish_extents.specs.Stretch.{Planned, first_block, end_block, Written, Finished, WholeBook};

pub mod ends;
pub mod made;
pub mod runs;

use ends::Closed;
use format::extent::EXTENT_BYTES;
use format::sizes::UNIT_BLOCKS;

// The most extents that are made: two at the ends, and a run for each block of 18 units.
pub const MOST_MADE: usize = 290;

// The extents that are made in place of the one in front of place `i`, where the units start, and those up to place `j`, where they end; that at
// `j` too unless the one in front of it reaches past the units.
fn make(
    extents: &[u8],
    n: usize,
    i: usize,
    j: usize,
    object: u64,
    units: &[u64],
    blocks: &[u32],
    first: u64,
    end: u64,
    made: &mut [u8],
) -> Closed
    requires extents_right { ExtentsRight most_blocks n extents.now × Planned object units.now blocks.now (extents_in n extents.now) }
    requires first_value { (first ≡ first_block units.now) × (end ≡ end_block units.now) × (i ≤ n) × (j ≤ n) }
    requires i_value { (i ≡ leading (extent_under object first) (extents_in n extents.now)) × (j ≡ leading (extent_under object end) (extents_in n extents.now)) }
    requires extent_bytes_in_bounds { extent_bytes * 290 ≤ length made.old }
    ensures count_bound { (result.count ≤ 290) × (j ≤ result.next) × (result.next ≤ n) }
    ensures finished { Finished object units.now blocks.now (extents_in n extents.now) (i - 1) result.next result.count made.new }
{
    let left = ends::push_left(extents, n, i, object, first, made);
    let all = runs::push_blocks(object, units, blocks, made, left);
    ends::push_right(extents, n, j, object, end, made, all)
}

// An exchange in the book: the `cut` extents from `place` on go, and the `count` that were made stand there.
#[derive(Clone, Copy)]
pub struct Exchange {
    pub place: usize,
    pub cut: usize,
    pub count: usize,
}

// The exchange from the extent in front of place `i` on, where there is one.
fn exchange_from(i: usize, t: Closed) -> Exchange
    requires { i ≤ t.next }
    ensures { (result.place ≡ i - 1) × (result.place + result.cut ≡ t.next) × (result.count ≡ t.count) }
{
    let place = i.saturating_sub(1);
    Exchange {
        place,
        cut: t.next - place,
        count: t.count,
    }
}

// The exchange that a change of the file of `object` makes in the book of `n` extents, and in `made` the extents that it puts there. The units
// are given by their numbers, and by their blocks one after another.
pub fn finished_extents(
    extents: &[u8],
    n: usize,
    object: u64,
    units: &[u64],
    blocks: &[u32],
    made: &mut [u8],
) -> Exchange
    requires extents_right { ExtentsRight most_blocks n extents.now × Planned object units.now blocks.now (extents_in n extents.now) }
    requires extent_bytes_in_bounds { extent_bytes * 290 ≤ length made.old }
    ensures cut_bound { (result.place + result.cut ≤ n) × (result.count ≤ 290) }
    ensures finished { Finished object units.now blocks.now (extents_in n extents.now) result.place (result.place + result.cut) result.count made.new }
{
    let first = units[0] * UNIT_BLOCKS as u64;
    let end = (units[units.len() - 1] + 1) * UNIT_BLOCKS as u64;
    let i = book::find::first_extent(extents, n, object, first);
    let j = book::find::first_extent(extents, n, object, end);
    exchange_from(
        i,
        make(extents, n, i, j, object, units, blocks, first, end, made),
    )
}

// The exchange made in the book.
pub fn finish_extents(extents: &mut [u8], n: usize, e: Exchange, made: &[u8])
    requires whole_book { WholeBook n extents.old × (e.place + e.cut ≤ n) }
    requires count_in_bounds { (extent_bytes * e.count ≤ length made.now) × Written e.count made.now }
    requires count_in_bounds_2 { extent_bytes * (n - e.cut + e.count) ≤ length extents.old }
    ensures { extents.new ≡ encode_book encode_extent (length extents.old) (take e.place (extents_in n extents.old) ++ extents_in e.count made.now ++ drop (e.place + e.cut) (extents_in n extents.old)) }
{
    let used = EXTENT_BYTES * e.count;
    book::splice::splice_records(
        extents,
        EXTENT_BYTES,
        n,
        e.place,
        e.cut,
        &made[0..used],
        e.count,
    );
}
