// Whether the extents map a block of the device at two places.
//
// The blocks of one extent after another are looked up in a map of those that were seen, and marked there. One that is marked already ends it.
#![tactic(auto)]

ghost use Rattle.std.specs.Prelude.{◌≡◌, true, ◌+◌, ◌-◌, ◌*◌, ◌≤◌, leb, length, replicate};
ghost use Rattle.rules.specs.Lists.{all};
ghost use Rattle.rules.specs.Sizes.{most_blocks};
ghost use Rattle.rules.specs.Extent.{extent_bytes, decode_extent};
ghost use Rattle.rules.specs.Book.{decode_book};
ghost use Rattle.book.specs.Places.{record_at};
ghost use Rattle.sharing.specs.Sharing.{seen_bytes, TellsShared, Looked};

use format::extent::EXTENT_BYTES;

// Bytes of a map of the most blocks.
const SEEN_BYTES: usize = 8192;

// Whether a block from `a` to `e` was seen. If none was, they are marked.
fn look_and_mark(seen: &mut [u8], a: usize, e: usize) -> bool
    requires { (a ≤ e) × (e ≤ 8 * length seen.old) }
    ensures { Looked result seen.old seen.new a (e - a) }
{
    if !bitmap::all_clear(seen, a, e) {
        return true;
    }
    bitmap::set_range(seen, a, e);
    false
}

// The same of the blocks of the extent at place `i`.
fn look_at_extent(extents: &[u8], i: usize, seen: &mut [u8]) -> bool
    requires extent_bytes_in_bounds { extent_bytes * i + extent_bytes ≤ length extents.now }
    requires i_bound { (record_at decode_extent extent_bytes extents.now i).physical + (record_at decode_extent extent_bytes extents.now i).count ≤ most_blocks }
    requires seen_len { length seen.old ≡ seen_bytes }
    ensures { Looked result seen.old seen.new (record_at decode_extent extent_bytes extents.now i).physical (record_at decode_extent extent_bytes extents.now i).count }
{
    let x = format::extent::decode_extent(extents, EXTENT_BYTES * i);
    let a = x.physical as usize;
    let e = a + x.count as usize;
    look_and_mark(seen, a, e)
}

// Whether a block is mapped at two places by the first `n` extents. `seen` is room for a bit of each block that a device can have, all clear.
fn blocks_shared(extents: &[u8], n: usize, seen: &mut [u8]) -> bool
    requires n_in_bounds { extent_bytes * n ≤ length extents.now }
    requires extents_value { all (λ e. leb (e.physical + e.count) most_blocks) (decode_book decode_extent extent_bytes n extents.now) ≡ true }
    requires seen_value { seen.old ≡ replicate seen_bytes 0 }
    ensures { TellsShared result (decode_book decode_extent extent_bytes n extents.now) }
{
    for i in 0..n {
        if look_at_extent(extents, i, seen) {
            return true;
        }
    }
    false
}

// Whether a block is mapped at two places by the first `n` extents, which lie on a device.
pub fn shared_blocks(extents: &[u8], n: usize) -> bool
    requires n_in_bounds { extent_bytes * n ≤ length extents.now }
    requires extents_value { all (λ e. leb (e.physical + e.count) most_blocks) (decode_book decode_extent extent_bytes n extents.now) ≡ true }
    ensures { TellsShared result (decode_book decode_extent extent_bytes n extents.now) }
{
    let mut seen = [0u8; SEEN_BYTES];
    blocks_shared(extents, n, &mut seen)
}
