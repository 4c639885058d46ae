// Extents made one behind another in a lent buffer.
ghost use Rattle.std.specs.Prelude.{◌≡◌, true, ◌+◌, ◌-◌, ◌*◌, ◌≤◌, ◌<◌, length};
ghost use Rattle.rules.specs.Extent.{extent_bytes, decode_extent, encode_extent, joins, joined};
ghost use Rattle.rules.specs.Bytes.{patch};
ghost use Rattle.book.specs.Places.{record_at};
ghost use Rattle.format.specs.Records.{extent_of};
ghost use Rattle.finish_extents.specs.Stretch.{joins_last, Pushed};

use format::extent::{EXTENT_BYTES, Extent};

// Whether the last of the `count` extents that were made joins `e`.
fn joins_last(made: &[u8], count: usize, e: Extent) -> bool
    requires { extent_bytes * count ≤ length made.now }
    ensures { result ≡ joins_last count made.now (extent_of e) }
{
    if count == 0 {
        return false;
    }
    let last = format::extent::decode_extent(made, EXTENT_BYTES * (count - 1));
    last.joins(e)
}

// The last of them made one with `e`.
fn join_last(made: &mut [u8], count: usize, e: Extent)
    requires count_nonzero { (0 < count) × (extent_bytes * count ≤ length made.old) }
    requires e_value { joins (record_at decode_extent extent_bytes made.old (count - 1)) (extent_of e) ≡ true }
    ensures { made.new ≡ patch made.old (extent_bytes * (count - 1)) (encode_extent (joined (record_at decode_extent extent_bytes made.old (count - 1)) (extent_of e))) }
{
    let place = EXTENT_BYTES * (count - 1);
    let last = format::extent::decode_extent(made, place);
    format::extent::encode_extent(made, place, last.joined(e));
}

// `e` behind the `count` extents that were made; it is one with the last of them where they join.
pub fn push(made: &mut [u8], count: usize, e: Extent) -> usize
    requires { extent_bytes * (count + 1) ≤ length made.old }
    ensures { (result ≤ count + 1) × Pushed count made.old (extent_of e) result made.new }
{
    if joins_last(made, count, e) {
        join_last(made, count, e);
        return count;
    }
    format::extent::encode_extent(made, EXTENT_BYTES * count, e);
    count + 1
}
