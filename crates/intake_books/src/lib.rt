// Refusal 2 on the books. Each book is walked once: a record is tested by itself and with the one before it, and what stands behind the last is
// tested for zeros; then cards and extents are walked side by side. A record's test takes one slice and a place, a book's one slice and the number
// of its records, so that they can be asked of parts of other buffers.
#![tactic(auto)]

ghost use Rattle.std.specs.Prelude.{◌≡◌, true, not, ◌+◌, ◌-◌, ◌*◌, ◌≤◌, ◌<◌, length};
ghost use Rattle.rules.specs.Bytes.{part};
ghost use Rattle.rules.specs.Lists.{ascending, begun};
ghost use Rattle.rules.specs.Sizes.{block_bytes};
ghost use Rattle.rules.specs.Card.{card_bytes, decode_card, card_before};
ghost use Rattle.rules.specs.Extent.{extent_bytes, decode_extent, extent_before};
ghost use Rattle.rules.specs.Group.{group_bytes, decode_group, group_before};
ghost use Rattle.rules.specs.Book.{decode_book};
ghost use Rattle.rules.specs.Integrity.{books_keep_rules};
ghost use Rattle.format.specs.Records.{extent_of};
ghost use Rattle.book.specs.Places.{record_at, follows};
ghost use Rattle.intake_books.specs.BookTests.{lent_as, card_right, extent_right, group_right, record_kept, cards_kept, extents_kept, groups_kept, cards_right, extents_right, groups_right, files_right, in_file_at, CardFrom, SameFile};

use checksum_group::GROUP_BYTES;
use format::card::CARD_BYTES;
use format::extent::{EXTENT_BYTES, Extent};
use format::sizes::BLOCK_BYTES;

// A second has so many nanoseconds.
const NANOSECONDS: u64 = 1000000000;

// Whether the card at `at` has its spare bits zero, and two times.
#[tactic(auto, unfolding(rules::specs::Integrity::card_times_right))]
pub fn card_right(s: &[u8], at: usize) -> bool
    requires { at + card_bytes ≤ length s.now }
    ensures { result ≡ card_right (part at card_bytes s.now) }
{
    format::card::card_spare_zero(s, at)
        && format::card::card_nanoseconds(s, at) < NANOSECONDS
        && format::card::card_created_nanoseconds(s, at) < NANOSECONDS
}

// Whether the card at place `i` is right, and follows the one before it.
#[tactic(auto, using(crate::proofs::WalkLaws::kept_is))]
fn card_step(s: &[u8], i: usize) -> bool
    requires { card_bytes * i + card_bytes ≤ length s.now }
    ensures { result ≡ record_kept card_right card_before decode_card card_bytes s.now i }
{
    card_right(s, CARD_BYTES * i) && (i == 0 || book::order::card_follows(s, i))
}

// Whether the first `n` cards keep the rules on cards.
pub fn cards_kept(s: &[u8], n: usize) -> bool
    requires { card_bytes * n ≤ length s.now }
    ensures { result ≡ cards_kept n s.now }
{
    for i in 0..n {
        if !card_step(s, i) {
            return false;
        }
    }
    true
}

// Whether a book of `n` cards keeps the rules.
pub fn cards_right(s: &[u8], n: usize) -> bool
    requires { card_bytes * n ≤ length s.now }
    ensures { result ≡ cards_right n s.now }
{
    book::order::packed(s, CARD_BYTES, n) && cards_kept(s, n)
}

// Whether the extent at `at` has its fixed bytes, is not empty, and lies on a device of so many blocks.
#[tactic(auto, unfolding(format::specs::Records::extent_of))]
pub fn extent_right(s: &[u8], at: usize, blocks: u64) -> bool
    requires { at + extent_bytes ≤ length s.now }
    ensures { result ≡ extent_right blocks (part at extent_bytes s.now) }
{
    let e = format::extent::decode_extent(s, at);
    format::extent::extent_fixed(s, at) && 0 < e.count && e.on_device(blocks)
}

// Whether the extent at place `i`, behind `last`, is right and follows it.
#[tactic(auto, using(crate::proofs::WalkLaws::kept_is), unfolding(book::specs::Places::record_at))]
fn extent_step(s: &[u8], i: usize, last: Extent, blocks: u64) -> bool
    requires i_nonzero { 0 < i }
    requires extent_bytes_in_bounds { extent_bytes * i + extent_bytes ≤ length s.now }
    requires last_value { extent_of last ≡ record_at decode_extent extent_bytes s.now (i - 1) }
    ensures { result ≡ record_kept (extent_right blocks) follows decode_extent extent_bytes s.now i }
{
    extent_right(s, EXTENT_BYTES * i, blocks)
        && book::order::extent_follows(last, format::extent::decode_extent(s, EXTENT_BYTES * i))
}

// Whether the first `n` extents keep the rules on extents, but for that on their files. Each is decoded once: the one before is kept.
pub fn extents_kept(s: &[u8], n: usize, blocks: u64) -> bool
    requires { extent_bytes * n ≤ length s.now }
    ensures { result ≡ extents_kept blocks n s.now }
{
    if n == 0 {
        return true;
    }
    if !extent_right(s, 0, blocks) {
        return false;
    }
    let mut last = format::extent::decode_extent(s, 0);
    for i in 1..n {
        if !extent_step(s, i, last, blocks) {
            return false;
        }
        last = format::extent::decode_extent(s, EXTENT_BYTES * i);
    }
    true
}

// Whether a book of `n` extents keeps the rules, but for that on their files.
pub fn extents_right(s: &[u8], n: usize, blocks: u64) -> bool
    requires { extent_bytes * n ≤ length s.now }
    ensures { result ≡ extents_right blocks n s.now }
{
    book::order::packed(s, EXTENT_BYTES, n) && extents_kept(s, n, blocks)
}

// Whether the group at `at` has its fixed byte, and zeros in each slot that is not present.
pub fn group_right(s: &[u8], at: usize) -> bool
    requires { at + group_bytes ≤ length s.now }
    ensures { result ≡ group_right (part at group_bytes s.now) }
{
    checksum_group::group_fixed(s, at) && checksum_group::absent_zero(s, at)
}

// Whether the group at place `i` is right, and follows the one before it.
#[tactic(auto, using(crate::proofs::WalkLaws::kept_is))]
fn group_step(s: &[u8], i: usize) -> bool
    requires { group_bytes * i + group_bytes ≤ length s.now }
    ensures { result ≡ record_kept group_right group_before decode_group group_bytes s.now i }
{
    group_right(s, GROUP_BYTES * i) && (i == 0 || book::order::group_follows(s, i))
}

// Whether the first `n` groups keep the rules on groups.
pub fn groups_kept(s: &[u8], n: usize) -> bool
    requires { group_bytes * n ≤ length s.now }
    ensures { result ≡ groups_kept n s.now }
{
    for i in 0..n {
        if !group_step(s, i) {
            return false;
        }
    }
    true
}

// Whether a book of `n` groups keeps the rules.
pub fn groups_right(s: &[u8], n: usize) -> bool
    requires { group_bytes * n ≤ length s.now }
    ensures { result ≡ groups_right n s.now }
{
    book::order::packed(s, GROUP_BYTES, n) && groups_kept(s, n)
}

// From place `a` on the first of `n` cards whose object is `object` or more, or `n`.
fn card_from(s: &[u8], n: usize, a: usize, object: u64) -> usize
    requires { (a ≤ n) × (card_bytes * n ≤ length s.now) }
    ensures { CardFrom object n a s.now result }
{
    for i in a..n {
        if object <= format::card::card_object(s, CARD_BYTES * i) {
            return i;
        }
    }
    n
}

// Whether the card at place `i`, if one of the `n` stands there, is that of an extent, which lies within the blocks of its size.
#[tactic(auto, unfolding(book::specs::Places::record_at, format::specs::Records::extent_of))]
fn in_file(s: &[u8], n: usize, i: usize, e: Extent) -> bool
    requires { card_bytes * n ≤ length s.now }
    ensures { result ≡ in_file_at (extent_of e) n s.now i }
{
    i < n
        && format::card::card_object(s, CARD_BYTES * i) == e.object
        && e.ends_by(file_blocks(s, i))
}

// The blocks of the size on the card at place `i`.
#[tactic(auto, unfolding(book::specs::Places::record_at))]
fn file_blocks(s: &[u8], i: usize) -> u64
    requires { card_bytes * i + card_bytes ≤ length s.now }
    ensures { result ≡ begun (record_at decode_card card_bytes s.now i).size block_bytes }
{
    format::card::card_size(s, CARD_BYTES * i).div_ceil(BLOCK_BYTES as u64)
}

// From place `a` on the first of `m` extents that is not one of `object` or ends past block `limit` of its file, or `m`.
fn same_file(s: &[u8], m: usize, a: usize, object: u64, limit: u64) -> usize
    requires { (a ≤ m) × (extent_bytes * m ≤ length s.now) }
    ensures { SameFile object limit m a s.now result }
{
    for i in a..m {
        let e = format::extent::decode_extent(s, EXTENT_BYTES * i);
        if e.object != object {
            return i;
        }
        if !e.ends_by(limit) {
            return i;
        }
    }
    m
}

// Whether each of `m` extents lies within the blocks of its file's size, and its file is one of `n` cards. Both books ascend, so they are walked side
// by side: the card of an extent stands at or behind that of the extent before it. The card is read for the first extent of its file; the others are
// held to its blocks.
pub fn files_right(cards: &[u8], n: usize, extents: &[u8], m: usize) -> bool
    requires n_in_bounds { (card_bytes * n ≤ length cards.now) × (extent_bytes * m ≤ length extents.now) }
    requires cards_value { ascending card_before (decode_book decode_card card_bytes n cards.now) ≡ true }
    requires extents_value { ascending extent_before (decode_book decode_extent extent_bytes m extents.now) ≡ true }
    ensures { result ≡ files_right n cards.now m extents.now }
{
    let mut j: usize = 0;
    let mut i: usize = 0;
    // Kept: a `while`, as the place jumps from file to file.
    while i < m {
        let e = format::extent::decode_extent(extents, EXTENT_BYTES * i);
        j = card_from(cards, n, j, e.object);
        if !in_file(cards, n, j, e) {
            return false;
        }
        let limit = file_blocks(cards, j);
        i = same_file(extents, m, i + 1, e.object, limit);
    }
    true
}

// Whether the books of a store of so many blocks break a rule of refusal 2: `n` cards, `m` extents and `k` groups.
#[tactic(auto, using(crate::proofs::BookRules::books_kept))]
pub fn books_broken(
    blocks: u64,
    cards: &[u8],
    n: usize,
    extents: &[u8],
    m: usize,
    groups: &[u8],
    k: usize,
) -> bool
    requires { (card_bytes * n ≤ length cards.now) × (extent_bytes * m ≤ length extents.now) × (group_bytes * k ≤ length groups.now) }
    ensures { result ≡ not (books_keep_rules blocks (lent_as cards.now n extents.now m groups.now k)) }
{
    !(cards_right(cards, n)
        && extents_right(extents, m, blocks)
        && groups_right(groups, k)
        && files_right(cards, n, extents, m))
}
