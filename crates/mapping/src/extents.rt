// Where the blocks of a stretch of a file are on the device. The book is searched once, by halves; the extents of the stretch, which stand side by side in
// it, are then held ahead in an array, which is lent for the lookup of each block (`held`).
ghost use Rattle.std.specs.Prelude.{◌≡◌, map, ℕ, ◌+◌, ◌*◌, ◌^◌, ◌≤◌, ◌<◌, length, get_or};
ghost use Rattle.rules.specs.Lists.{range};
ghost use Rattle.rules.specs.Sizes.{most_blocks};
ghost use Rattle.rules.specs.Extent.{extent_bytes, decode_extent, mapping};
ghost use Rattle.format.specs.Records.{extent_of};
ghost use Rattle.book.specs.Places.{record_at};
ghost use Rattle.mapping.specs.Entries.{entries, extents_in, ExtentsRight};
ghost use Rattle.mapping.specs.Held.{most_stretch, lies_before, starts_before, StretchFrom, RoomAhead, HeldAhead};

use format::extent::{EXTENT_BYTES, Extent};
use held::MOST_STRETCH;

// The extents of a stretch, side by side at the front of the array, and how many they are.
#[derive(Drop)]
struct Ahead {
    extents: [Extent; MOST_STRETCH],
    count: usize,
}

// Whether the extent at place `i` lies before `block` of the file of `object`.
fn lies_before(s: &[u8], i: usize, object: u64, block: u64) -> bool
    requires { extent_bytes * i + extent_bytes ≤ length s.now }
    ensures { result ≡ lies_before object block (record_at decode_extent extent_bytes s.now i) }
{
    let e = format::extent::decode_extent(s, EXTENT_BYTES * i);
    if e.object != object {
        return e.object < object;
    }
    e.ends_by(block)
}

// The place of the first extent that does not lie before `block`, or `n`: the floor of `block` if it ends behind it, and else the next.
fn first_from(s: &[u8], n: usize, object: u64, block: u64) -> usize
    requires { ExtentsRight most_blocks n s.now }
    ensures { StretchFrom object block n s.now result }
{
    let r = book::find::search_extent(s, n, object, block);
    let found = r.found;
    if let Some(i) = found {
        if !lies_before(s, i, object, block) {
            return i;
        }
    }
    r.place
}

// Whether an extent is one of `object` that starts before `limit`.
fn starts_before(e: Extent, object: u64, limit: u64) -> bool
    ensures { result ≡ starts_before object limit (extent_of e) }
{
    if e.object != object {
        return false;
    }
    e.logical < limit
}

// The extents from `place` on that are of `object` and start before `limit`.
fn hold_ahead(extents: &[u8], n: usize, place: usize, object: u64, limit: u64) -> Ahead
    requires extents_right { ExtentsRight most_blocks n extents.now }
    requires place_le_n { place ≤ n }
    requires room_ahead { RoomAhead object limit n extents.now place }
    ensures { HeldAhead object limit n extents.now place result.extents result.count }
{
    let mut held = [Extent {
        object: 0,
        logical: 0,
        physical: 0,
        count: 0,
    }; MOST_STRETCH];
    let mut k: usize = 0;
    while k < n - place {
        let e = format::extent::decode_extent(extents, EXTENT_BYTES * (place + k));
        if !starts_before(e, object, limit) {
            return Ahead {
                extents: held,
                count: k,
            };
        }
        held[k] = e;
        k += 1;
    }
    Ahead {
        extents: held,
        count: k,
    }
}

// The entries of the blocks of the file of `object` from `first` on, as a book of `n` extents that keeps its rules has them.
pub fn map_blocks(extents: &[u8], n: usize, object: u64, first: u64, blocks: &mut [u32])
    requires extents_right { ExtentsRight most_blocks n extents.now }
    requires blocks_len_bound { length blocks.old ≤ most_stretch }
    requires blocks_bound { first + length blocks.old < 2 ^ 64 }
    ensures { (entries blocks.new ≡ map (mapping (extents_in n extents.now) object) (range first (length blocks.old))) × ((i : ℕ) → get_or blocks.new i 0 ≤ most_blocks) }
{
    let place = first_from(extents, n, object, first);
    let limit = first + blocks.len() as u64;
    let ahead = hold_ahead(extents, n, place, object, limit);
    let held = ahead.extents;
    held::map_held(held, ahead.count, object, first, blocks);
}
