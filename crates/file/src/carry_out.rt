// A planned change carried out over the lent buffers. Everything that is refused has been refused by then.
ghost use Rattle.std.specs.Prelude.{◌≡◌, true, ◌+◌, ◌-◌, ◌*◌, ◌^◌, ◌≤◌, ◌<◌, length, take};
ghost use Rattle.rules.specs.Lists.{any};
ghost use Rattle.rules.specs.Head.{head_bytes};
ghost use Rattle.rules.specs.Card.{card_bytes, decode_card};
ghost use Rattle.rules.specs.Extent.{extent_bytes};
ghost use Rattle.rules.specs.Book.{decode_book};
ghost use Rattle.lent.specs.Lent.{store_of, SamePlaces};
ghost use Rattle.book.specs.Places.{card_is};
ghost use Rattle.kept.specs.Change.{ChangeFits};
ghost use Rattle.finish_units.specs.Carry.{UnitsFit};
ghost use Rattle.finish_books.specs.Buffers.{NewInside, OldInside, CardsRight};
ghost use Rattle.finish_books.specs.Groups.{groups_in, GroupsRight, UnitsRight};
ghost use Rattle.finish_extents.specs.Stretch.{Written, WholeBook};
ghost use Rattle.file.specs.Room.{RoomFor};
ghost use Rattle.file.specs.Out.{StoreLeft};

use finish_extents::Exchange;
use lent::Store;

// The units with their checksums, and then the maps, the extents, the card and the head. The books have `n` cards, `m` extents and `g` groups, and
// `left` groups afterwards; `flat` blocks are the units' together.
pub fn carry_out(
    store: &mut Store<'_>,
    n: usize,
    m: usize,
    g: usize,
    uuid: &[u8],
    object: u64,
    old_size: u64,
    new_size: u64,
    offset: u64,
    bytes: &[u8],
    allocated: u64,
    seconds: u64,
    nanoseconds: u64,
    hint: u64,
    left: u64,
    e: Exchange,
    made: &[u8],
    units: &[u64],
    slots: &[u64],
    old: &[u32],
    kept: &[u32],
    blocks: &[u32],
    flat: usize,
)
    requires change_fits { ChangeFits old_size new_size offset (length bytes.now) }
    requires units_fit { UnitsFit store.old.image.now new_size units.now slots.now old.now kept.now blocks.now × (flat ≤ length kept.now) }
    requires groups_right { GroupsRight g store.old.groups.now × UnitsRight object (groups_in g store.old.groups.now) units.now }
    requires room_for { RoomFor object units.now g store.old.groups.now }
    requires new_inside { NewInside (8 * length store.old.used.now) (take flat kept.now) (take flat blocks.now) × OldInside (8 * length store.old.retired.now) old.now }
    requires whole_book { WholeBook m store.old.extents.now × (e.place + e.cut ≤ m) }
    requires count_in_bounds { (extent_bytes * e.count ≤ length made.now) × Written e.count made.now }
    requires count_in_bounds_2 { (extent_bytes * (m - e.cut + e.count) ≤ length store.old.extents.now) × (m - e.cut + e.count < 2 ^ 20) }
    requires cards_right { CardsRight n store.old.cards.now × (any (card_is object) (decode_book decode_card card_bytes n store.old.cards.now) ≡ true) }
    requires new_size_bound { (new_size < 2 ^ 63) × (allocated < 2 ^ 35) × (seconds < 2 ^ 63) × (nanoseconds < 2 ^ 30) }
    requires head_len { (length store.old.head.now ≡ head_bytes) × (hint < 2 ^ 2) × (left < 2 ^ 20) }
    ensures same_places { SamePlaces store.old store.new }
    ensures store_left { StoreLeft (store_of store.old) (store_of store.new) n m g object old_size new_size offset allocated seconds nanoseconds hint left e.place e.cut e.count flat uuid.now bytes.now units.now slots.now old.now kept.now blocks.now made.now }
{
    super::carry_data::carry_data(
        store.image,
        store.groups,
        g,
        uuid,
        object,
        old_size,
        new_size,
        offset,
        bytes,
        units,
        slots,
        old,
        kept,
        blocks,
    );
    super::carry_books::carry_books(
        store.head,
        store.cards,
        store.extents,
        store.used,
        store.retired,
        n,
        m,
        object,
        new_size,
        allocated,
        seconds,
        nanoseconds,
        hint,
        left,
        e,
        made,
        old,
        &kept[..flat],
        &blocks[..flat],
    );
}
