// What a change leaves of the head, the cards, the extents and the maps, all at once.
ghost use Rattle.std.specs.Prelude.{◌≡◌, true, ◌+◌, ◌-◌, ◌*◌, ◌^◌, ◌≤◌, ◌<◌, length};
ghost use Rattle.rules.specs.Lists.{any};
ghost use Rattle.rules.specs.Head.{head_bytes};
ghost use Rattle.rules.specs.Card.{card_bytes, decode_card};
ghost use Rattle.rules.specs.Extent.{extent_bytes};
ghost use Rattle.rules.specs.Book.{decode_book};
ghost use Rattle.book.specs.Places.{card_is};
ghost use Rattle.finish_books.specs.Buffers.{NewInside, OldInside, CardsRight};
ghost use Rattle.finish_extents.specs.Stretch.{Written, WholeBook};
ghost use Rattle.file.specs.Books.{MapsLeft, ExtentsLeft, RecordsLeft};

use finish_extents::Exchange;

// The maps, the exchange in the book of `m` extents, the card among `n` and the head. `groups` is how many groups there are now.
pub fn carry_books(
    head: &mut [u8],
    cards: &mut [u8],
    extents: &mut [u8],
    used: &mut [u8],
    retired: &mut [u8],
    n: usize,
    m: usize,
    object: u64,
    size: u64,
    allocated: u64,
    seconds: u64,
    nanoseconds: u64,
    hint: u64,
    groups: u64,
    e: Exchange,
    made: &[u8],
    old: &[u32],
    kept: &[u32],
    blocks: &[u32],
)
    requires kept_len { length kept.now ≡ length blocks.now }
    requires new_inside { NewInside (8 * length used.old) kept.now blocks.now × OldInside (8 * length retired.old) old.now }
    requires whole_book { WholeBook m extents.old × (e.place + e.cut ≤ m) }
    requires count_in_bounds { (extent_bytes * e.count ≤ length made.now) × Written e.count made.now }
    requires count_in_bounds_2 { (extent_bytes * (m - e.cut + e.count) ≤ length extents.old) × (m - e.cut + e.count < 2 ^ 20) }
    requires cards_right { CardsRight n cards.old × (any (card_is object) (decode_book decode_card card_bytes n cards.old) ≡ true) }
    requires size_bound { (size < 2 ^ 63) × (allocated < 2 ^ 35) × (seconds < 2 ^ 63) × (nanoseconds < 2 ^ 30) }
    requires head_len { (length head.old ≡ head_bytes) × (hint < 2 ^ 2) × (groups < 2 ^ 20) }
    ensures maps_left { MapsLeft used.old retired.old old.now kept.now blocks.now used.new retired.new }
    ensures extents_left { ExtentsLeft m e.place e.cut e.count made.now extents.old extents.new }
    ensures records_left { RecordsLeft n object size allocated seconds nanoseconds hint (m - e.cut + e.count) groups head.old cards.old head.new cards.new }
{
    let left = (m - e.cut + e.count) as u64;
    super::carry::carry_maps(used, retired, old, kept, blocks);
    super::carry::carry_extents(extents, m, e, made);
    super::carry::carry_records(
        head,
        cards,
        n,
        object,
        size,
        allocated,
        seconds,
        nanoseconds,
        hint,
        left,
        groups,
    );
}
