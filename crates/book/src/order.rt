// The tests of a book: its records ascend, extents of one file keep apart from each other, and zeros stand behind the last record.
ghost use Rattle.std.specs.Prelude.{◌≡◌, ◌&&◌, ◌+◌, ◌-◌, ◌*◌, ◌≤◌, ◌<◌, length, drop};
ghost use Rattle.rules.specs.Bytes.{all_zero};
ghost use Rattle.rules.specs.Lists.{ascending, neighbours};
ghost use Rattle.rules.specs.Card.{card_bytes, decode_card, card_before};
ghost use Rattle.rules.specs.Extent.{extent_bytes, decode_extent, extent_before};
ghost use Rattle.rules.specs.Group.{group_bytes, decode_group, group_before};
ghost use Rattle.rules.specs.Book.{decode_book, zero_behind};
ghost use Rattle.rules.specs.Integrity.{apart};
ghost use Rattle.format.specs.Records.{extent_of};
ghost use Rattle.book.specs.Places.{record_at, follows};

use checksum_group::GROUP_BYTES;
use format::card::CARD_BYTES;
use format::extent::{EXTENT_BYTES, Extent};

// So many bytes are looked at together; the first stretch that is not zero ends the test.
const STRETCH: usize = 4096;

// Whether zeros stand behind the first `used` bytes.
fn zero_from(s: &[u8], used: usize) -> bool
    requires { used ≤ length s.now }
    ensures { result ≡ all_zero (drop used s.now) }
{
    let (stretches, rest) = s[used..].as_chunks::<STRETCH>();
    stretches
        .iter()
        .all(|x| words::range::is_zero(x, 0, STRETCH))
        && words::range::is_zero(rest, 0, rest.len())
}

// Whether zeros stand behind the last of `n` records of `width` bytes.
pub fn packed(s: &[u8], width: usize, n: usize) -> bool
    requires { width * n ≤ length s.now }
    ensures { result ≡ zero_behind width n s.now }
{
    zero_from(s, width * n)
}

// Whether the card at place `i` follows the one before it.
pub fn card_follows(s: &[u8], i: usize) -> bool
    requires i_nonzero { 0 < i }
    requires card_bytes_in_bounds { card_bytes * i + card_bytes ≤ length s.now }
    ensures { result ≡ card_before (record_at decode_card card_bytes s.now (i - 1)) (record_at decode_card card_bytes s.now i) }
{
    let a = format::card::card_object(s, CARD_BYTES * (i - 1));
    let b = format::card::card_object(s, CARD_BYTES * i);
    a < b
}

// Whether the group at place `i` follows the one before it.
pub fn group_follows(s: &[u8], i: usize) -> bool
    requires i_nonzero { 0 < i }
    requires group_bytes_in_bounds { group_bytes * i + group_bytes ≤ length s.now }
    ensures { result ≡ group_before (record_at decode_group group_bytes s.now (i - 1)) (record_at decode_group group_bytes s.now i) }
{
    let a = GROUP_BYTES * (i - 1);
    let b = GROUP_BYTES * i;
    format::key::before(
        checksum_group::group_object(s, a),
        checksum_group::group_number(s, a),
        checksum_group::group_object(s, b),
        checksum_group::group_number(s, b),
    )
}

// Whether an extent stands before the next and keeps apart from it.
pub fn extent_follows(e: Extent, next: Extent) -> bool
    ensures { result ≡ follows (extent_of e) (extent_of next) }
{
    e.before(next) && e.apart(next)
}

// Whether the first `n` extents ascend by key and keep apart from each other. Each is decoded once: the one before is kept.
pub fn extents_ordered(s: &[u8], n: usize) -> bool
    requires { extent_bytes * n ≤ length s.now }
    ensures { result ≡ (ascending extent_before (decode_book decode_extent extent_bytes n s.now) && neighbours apart (decode_book decode_extent extent_bytes n s.now)) }
{
    if n == 0 {
        return true;
    }
    let mut last = format::extent::decode_extent(s, 0);
    for i in 1..n {
        let next = format::extent::decode_extent(s, EXTENT_BYTES * i);
        if !extent_follows(last, next) {
            return false;
        }
        last = next;
    }
    true
}
