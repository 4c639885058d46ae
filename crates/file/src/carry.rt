// What a change leaves of the maps and the books, two buffers at a time or one.
ghost use Rattle.std.specs.Prelude.{◌≡◌, true, ◌||◌, List, ℕ, ◌+◌, ◌-◌, ◌*◌, ◌^◌, ◌≤◌, ◌<◌, length};
ghost use Rattle.rules.specs.Lists.{any, member};
ghost use Rattle.rules.specs.Bytes.{bit_set};
ghost use Rattle.rules.specs.Map.{map_bytes, encode_map};
ghost use Rattle.rules.specs.Head.{head_bytes, decode_head, encode_head};
ghost use Rattle.rules.specs.Card.{card_bytes, decode_card, encode_card};
ghost use Rattle.rules.specs.Extent.{extent_bytes, encode_extent};
ghost use Rattle.rules.specs.Book.{decode_book, encode_book};
ghost use Rattle.rules.specs.Units.{Change};
ghost use Rattle.rules.specs.Rewrite.{Rewritten};
ghost use Rattle.rules.specs.Kept.{superseded};
ghost use Rattle.rules.specs.Finish.{finished_cards, finished_extents};
ghost use Rattle.book.specs.Places.{card_is};
ghost use Rattle.mapping.specs.Entries.{entries, extents_in};
ghost use Rattle.finish_books.specs.Buffers.{new_of, NewInside, OldInside, CardsRight, finished_head};
ghost use Rattle.finish_extents.specs.Stretch.{Describes, Written, Finished, WholeBook};

use finish_extents::Exchange;

// The new blocks used, and the old ones that the units no longer have retired.
pub fn carry_maps(used: &mut [u8], retired: &mut [u8], old: &[u32], kept: &[u32], blocks: &[u32])
    requires kept_len { length kept.now ≡ length blocks.now }
    requires new_inside { NewInside (8 * length used.old) kept.now blocks.now }
    requires old_inside { OldInside (8 * length retired.old) old.now }
    ensures by_index { (b : ℕ) → length used.old ≡ map_bytes b → used.new ≡ encode_map b (λ n. bit_set used.old n || member n (new_of kept.now blocks.now)) }
    ensures by_index_2 { (b : ℕ) → length retired.old ≡ map_bytes b → retired.new ≡ encode_map b (λ n. bit_set retired.old n || member n (superseded (entries old.now) (entries kept.now))) }
{
    finish_books::maps::mark_used(used, kept, blocks);
    finish_books::maps::mark_retired(retired, old, kept);
}

// The card of the changed file, and the head with the numbers of extents and groups that there are now.
pub fn carry_records(
    head: &mut [u8],
    cards: &mut [u8],
    n: usize,
    object: u64,
    size: u64,
    allocated: u64,
    seconds: u64,
    nanoseconds: u64,
    hint: u64,
    extents: u64,
    groups: u64,
)
    requires cards_right { CardsRight n cards.old }
    requires cards_value { any (card_is object) (decode_book decode_card card_bytes n cards.old) ≡ true }
    requires size_bound { (size < 2 ^ 63) × (allocated < 2 ^ 35) × (seconds < 2 ^ 63) × (nanoseconds < 2 ^ 30) }
    requires head_len { length head.old ≡ head_bytes }
    requires hint_bound { (hint < 2 ^ 2) × (extents < 2 ^ 20) × (groups < 2 ^ 20) }
    ensures cards_after { (c : Change) → c.object ≡ object → c.new_size ≡ size → cards.new ≡ encode_book encode_card (length cards.old) (finished_cards c allocated (record { seconds = seconds; nanoseconds = nanoseconds }) (decode_book decode_card card_bytes n cards.old)) }
    ensures head_after { head.new ≡ encode_head (finished_head hint extents groups (decode_head head.old)) }
{
    finish_books::card::finish_card(cards, n, object, size, allocated, seconds, nanoseconds);
    finish_books::head::finish_head(head, hint, extents, groups);
}

// The exchange made in the book of extents. For whatever units it was made, the book has their finished extents.
pub fn carry_extents(extents: &mut [u8], n: usize, e: Exchange, made: &[u8])
    requires whole_book { WholeBook n extents.old × (e.place + e.cut ≤ n) }
    requires count_in_bounds { (extent_bytes * e.count ≤ length made.now) × Written e.count made.now }
    requires count_in_bounds_2 { extent_bytes * (n - e.cut + e.count) ≤ length extents.old }
    ensures { (object : ℕ) (us bs : List ℕ) (rs : List Rewritten) → Finished object us bs (extents_in n extents.old) e.place (e.place + e.cut) e.count made.now → Describes us bs rs → extents.new ≡ encode_book encode_extent (length extents.old) (finished_extents object rs (extents_in n extents.old)) }
{
    finish_extents::finish_extents(extents, n, e, made);
}
