// Searches in the three books. Those for a place in the order of the keys go by halves (`halving`); those that promise the first record of any book, ordered
// or not, scan it.
ghost use Rattle.std.specs.Prelude.{◌≡◌, true, ◌+◌, ◌*◌, ◌≤◌, ◌<◌, length};
ghost use Rattle.rules.specs.Lists.{ascending};
ghost use Rattle.rules.specs.Sizes.{most_places};
ghost use Rattle.rules.specs.Card.{card_bytes, decode_card, card_before};
ghost use Rattle.rules.specs.Extent.{extent_bytes, decode_extent, extent_before, covers};
ghost use Rattle.rules.specs.Group.{group_bytes, decode_group, group_before};
ghost use Rattle.rules.specs.Book.{decode_book};
ghost use Rattle.halving.specs.Halving.{Parted};
ghost use Rattle.book.specs.Places.{record_at, FoundFirst, FloorExtent, SearchedBook, reached_at, leading, card_is, card_under, extent_under, group_is, group_under};

use checksum_group::GROUP_BYTES;
use format::card::CARD_BYTES;
use format::extent::EXTENT_BYTES;
use halving::Halved;

// Whether the card at place `i` is that of `object`.
fn card_is(s: &[u8], i: usize, object: u64) -> bool
    requires { card_bytes * i + card_bytes ≤ length s.now }
    ensures { result ≡ card_is object (record_at decode_card card_bytes s.now i) }
{
    format::card::card_object(s, CARD_BYTES * i) == object
}

// The card of `object` among the first `n`.
pub fn find_card(s: &[u8], n: usize, object: u64) -> Option<usize>
    requires { card_bytes * n ≤ length s.now }
    ensures { FoundFirst (card_is object) decode_card card_bytes n s.now result }
{
    (0..n).find(|&i| card_is(s, i, object))
}

// Whether the group at place `i` has this key.
fn group_is(s: &[u8], i: usize, object: u64, number: u64) -> bool
    requires { group_bytes * i + group_bytes ≤ length s.now }
    ensures { result ≡ group_is object number (record_at decode_group group_bytes s.now i) }
{
    let at = GROUP_BYTES * i;
    checksum_group::group_object(s, at) == object && checksum_group::group_number(s, at) == number
}

// The group with this key among the first `n`.
pub fn find_group(s: &[u8], n: usize, object: u64, number: u64) -> Option<usize>
    requires { group_bytes * n ≤ length s.now }
    ensures { FoundFirst (group_is object number) decode_group group_bytes n s.now result }
{
    (0..n).find(|&i| group_is(s, i, object, number))
}

// The floor of `block` among the first `n` extents: the last that is one of `object` and starts at `block` or before. By halves.
pub fn search_extent(s: &[u8], n: usize, object: u64, block: u64) -> Halved
    requires n_in_bounds { extent_bytes * n ≤ length s.now }
    requires n_le_most_places { n ≤ most_places }
    ensures floor_extent { ascending extent_before (decode_book decode_extent extent_bytes n s.now) ≡ true → FloorExtent object block n s.now result.found }
    ensures parted { ascending extent_before (decode_book decode_extent extent_bytes n s.now) ≡ true → Parted (reached_at object block s.now) n result.place }
    ensures searched_book { SearchedBook object block n s.now result.found result.place result.rounds }
{
    halving::halve(s, EXTENT_BYTES, n, object, block, true)
}

// The floor alone.
pub fn floor_extent(s: &[u8], n: usize, object: u64, block: u64) -> Option<usize>
    requires n_in_bounds { extent_bytes * n ≤ length s.now }
    requires n_le_most_places { n ≤ most_places }
    ensures { ascending extent_before (decode_book decode_extent extent_bytes n s.now) ≡ true → FloorExtent object block n s.now result }
{
    search_extent(s, n, object, block).found
}

// Whether the extent at place `i` maps this block of the file of `object`.
fn extent_covers(s: &[u8], i: usize, object: u64, block: u64) -> bool
    requires { extent_bytes * i + extent_bytes ≤ length s.now }
    ensures { result ≡ covers object block (record_at decode_extent extent_bytes s.now i) }
{
    format::extent::decode_extent(s, EXTENT_BYTES * i).covers(object, block)
}

// The extent among the first `n` that maps this block of the file of `object`.
pub fn covering(s: &[u8], n: usize, object: u64, block: u64) -> Option<usize>
    requires { extent_bytes * n ≤ length s.now }
    ensures { FoundFirst (covers object block) decode_extent extent_bytes n s.now result }
{
    (0..n).find(|&i| extent_covers(s, i, object, block))
}

// The place of the first card whose object is `object` or more, or `n`. A card has no number in its key: against 0, under which nothing stands, the bytes at
// that place do not count.
pub fn first_card(s: &[u8], n: usize, object: u64) -> usize
    requires { card_bytes * n ≤ length s.now }
    ensures { (ascending card_before (decode_book decode_card card_bytes n s.now) ≡ true → result ≡ leading (card_under object) (decode_book decode_card card_bytes n s.now)) × (result ≤ n) }
{
    halving::halve(s, CARD_BYTES, n, object, 0, false).place
}

// The place of the first extent at or after this key, or `n`.
pub fn first_extent(s: &[u8], n: usize, object: u64, logical: u64) -> usize
    requires { extent_bytes * n ≤ length s.now }
    ensures { (ascending extent_before (decode_book decode_extent extent_bytes n s.now) ≡ true → result ≡ leading (extent_under object logical) (decode_book decode_extent extent_bytes n s.now)) × (result ≤ n) }
{
    halving::halve(s, EXTENT_BYTES, n, object, logical, false).place
}

// The place of the first group at or after this key, or `n`.
pub fn first_group(s: &[u8], n: usize, object: u64, number: u64) -> usize
    requires { group_bytes * n ≤ length s.now }
    ensures { (ascending group_before (decode_book decode_group group_bytes n s.now) ≡ true → result ≡ leading (group_under object number) (decode_book decode_group group_bytes n s.now)) × (result ≤ n) }
{
    halving::halve(s, GROUP_BYTES, n, object, number, false).place
}
