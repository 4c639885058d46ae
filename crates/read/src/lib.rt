// The call read, refusals 1 and 2 past: the units that it touches checked, all of them before a byte is handed out, and its bytes handed out.
//
// `check_range` and `image::out::hand_out` are apart, so that a call of many reads can check them all before the first byte.
#![tactic(auto)]

ghost use Rattle.std.specs.Prelude.{◌≡◌, map, ◌+◌, ◌-◌, ◌*◌, ◌/◌, ◌%◌, min, ◌≤◌, ◌<◌, length};
ghost use Rattle.rules.specs.Lists.{range, begun};
ghost use Rattle.rules.specs.Sizes.{unit_blocks, unit_bytes, most_transfer};
ghost use Rattle.rules.specs.Extent.{mapping};
ghost use Rattle.rules.specs.Group.{group_bytes, decode_group};
ghost use Rattle.rules.specs.Book.{decode_book};
ghost use Rattle.rules.specs.Read.{read_length};
ghost use Rattle.crc32c_tables.specs.Register.{Tables};
ghost use Rattle.mapping.specs.Entries.{entries, Inside, extents_in, slot_of};
ghost use Rattle.rules.specs.Answers.{checked_number};
ghost use Rattle.format.specs.Refusals.{number_in, count_in};
ghost use Rattle.inspect.specs.Mapped.{check_mapped};
ghost use Rattle.read.specs.Range.{Readable, checked_range};
ghost use Rattle.read.specs.Gives.{gives, gives_checked, checked_units, gives_sized, gives_read, ReadReady};

use format::card::CARD_BYTES;
use format::refusal::Refusal;
use format::sizes::{UNIT_BLOCKS, UNIT_BYTES};

// Bytes that a read gets at most.
const MOST_TRANSFER: u64 = 1048576;

// Units that a read touches at most: those of its bytes, and one more where it starts inside a unit.
const MOST_UNITS: usize = 17;

// Blocks of so many units.
pub const MOST_BLOCKS: usize = MOST_UNITS * UNIT_BLOCKS;

// How many bytes a read gets of a file of this size.
pub fn read_length(size: u64, offset: u64, room: usize) -> usize
    ensures { result ≡ read_length size offset room }
{
    let left = size.saturating_sub(offset);
    left.min(room as u64).min(MOST_TRANSFER) as usize
}

// How many units the `n` bytes from `offset` on touch.
pub fn units_touched(offset: u64, n: usize) -> usize
    requires { (0 < n) × (n ≤ most_transfer) }
    ensures { (result ≡ begun (offset + n) unit_bytes - offset / unit_bytes) × (0 < result) × (result ≤ 17) }
{
    ((offset % UNIT_BYTES as u64) as usize + n + (UNIT_BYTES - 1)) / UNIT_BYTES
}

// The units from `first` on checked, one for each slot: their checksums are looked up into `slots`, their blocks stand in `blocks`.
fn check_slots(
    t: &[u32; 4096],
    w: &mut [u8],
    slots: &mut [u64],
    image: &[u8],
    uuid: &[u8],
    groups: &[u8],
    g: usize,
    object: u64,
    size: u64,
    first: u64,
    blocks: &[u32],
) -> Result<(), Refusal>
    requires tables { Tables t.now }
    requires w_len { length w.old ≡ 4624 }
    requires g_in_bounds { group_bytes * g ≤ length groups.now }
    requires inside { Inside image.now blocks.now }
    requires blocks_len { length blocks.now ≡ unit_blocks * length slots.old }
    requires unit_bytes_bound { (first + length slots.old) * unit_bytes < size + unit_bytes }
    ensures { number_in result ≡ checked_number (check_mapped image.now uuid.now object size first (map (slot_of (decode_book decode_group group_bytes g groups.now) object) (range first (length slots.old))) (entries blocks.now)) }
{
    mapping::slots::unit_slots(groups, g, object, first, slots);
    inspect::check_units(t, w, image, uuid, object, size, first, slots, blocks)
}

// The `k` units from `first` on of a file of this size looked up and checked; their blocks are left in `blocks`.
pub fn check_range(
    t: &[u32; 4096],
    w: &mut [u8],
    image: &[u8],
    uuid: &[u8],
    extents: &[u8],
    e: usize,
    groups: &[u8],
    g: usize,
    object: u64,
    size: u64,
    first: u64,
    k: usize,
    blocks: &mut [u32],
) -> Result<(), Refusal>
    requires tables { Tables t.now }
    requires w_len { length w.old ≡ 4624 }
    requires readable { Readable image.now extents.now groups.now e g }
    requires blocks_len { (length blocks.old ≡ k * unit_blocks) × (k ≤ 17) }
    requires unit_bytes_bound { (first + k) * unit_bytes < size + unit_bytes }
    ensures { (number_in result ≡ checked_number (checked_range image.now uuid.now extents.now groups.now e g object size first k)) × (entries blocks.new ≡ map (mapping (extents_in e extents.now) object) (range (first * unit_blocks) (k * unit_blocks))) }
{
    mapping::extents::map_blocks(extents, e, object, first * UNIT_BLOCKS as u64, blocks);
    let mut slots = [0u64; MOST_UNITS];
    check_slots(
        t,
        w,
        &mut slots[..k],
        image,
        uuid,
        groups,
        g,
        object,
        size,
        first,
        blocks,
    )
}

// The `n` bytes from `offset` on of a file of this size, which lie in `k` units, at the head of `out`.
fn read_range(
    t: &[u32; 4096],
    w: &mut [u8],
    blocks: &mut [u32],
    image: &[u8],
    uuid: &[u8],
    extents: &[u8],
    e: usize,
    groups: &[u8],
    g: usize,
    object: u64,
    size: u64,
    offset: u64,
    n: usize,
    k: usize,
    out: &mut [u8],
) -> Result<usize, Refusal>
    requires tables { Tables t.now }
    requires w_len { length w.old ≡ 4624 }
    requires blocks_len { (length blocks.old ≡ k * unit_blocks) × (k ≤ 17) }
    requires readable { Readable image.now extents.now groups.now e g }
    requires k_value { k ≡ begun (offset + n) unit_bytes - offset / unit_bytes }
    requires n_nonzero { (0 < n) × (offset + n ≤ size) }
    requires n_in_bounds { n ≤ length out.old }
    ensures { gives (number_in result) (count_in result) out.new ≡ gives_checked (offset % unit_bytes) n out.old (checked_units image.now uuid.now extents.now groups.now e g object size offset n) }
{
    let first = offset / UNIT_BYTES as u64;
    check_range(
        t, w, image, uuid, extents, e, groups, g, object, size, first, k, blocks,
    )?;
    let place = offset % UNIT_BYTES as u64;
    image::out::hand_out(image, blocks, place as usize, n, out);
    Ok(n)
}

// The same, with the tables of the checksum, its window and the room for the blocks.
fn read_units(
    image: &[u8],
    uuid: &[u8],
    extents: &[u8],
    e: usize,
    groups: &[u8],
    g: usize,
    object: u64,
    size: u64,
    offset: u64,
    n: usize,
    out: &mut [u8],
) -> Result<usize, Refusal>
    requires readable { Readable image.now extents.now groups.now e g }
    requires n_nonzero { (0 < n) × (n ≤ most_transfer) }
    requires n_bound { offset + n ≤ size }
    requires n_in_bounds { n ≤ length out.old }
    ensures { gives (number_in result) (count_in result) out.new ≡ gives_checked (offset % unit_bytes) n out.old (checked_units image.now uuid.now extents.now groups.now e g object size offset n) }
{
    let t = crc32c_tables::tables();
    let mut w = [0u8; 4624];
    let mut blocks = [0u32; MOST_BLOCKS];
    let k = units_touched(offset, n);
    let m = k * UNIT_BLOCKS;
    read_range(
        &t,
        &mut w,
        &mut blocks[..m],
        image,
        uuid,
        extents,
        e,
        groups,
        g,
        object,
        size,
        offset,
        n,
        k,
        out,
    )
}

// A read of a file of this size.
fn read_sized(
    image: &[u8],
    uuid: &[u8],
    extents: &[u8],
    e: usize,
    groups: &[u8],
    g: usize,
    object: u64,
    size: u64,
    offset: u64,
    out: &mut [u8],
) -> Result<usize, Refusal>
    requires { Readable image.now extents.now groups.now e g }
    ensures { gives (number_in result) (count_in result) out.new ≡ gives_sized image.now uuid.now extents.now groups.now e g object offset out.old size }
{
    let n = read_length(size, offset, out.len());
    if n == 0 {
        return Ok(0);
    }
    read_units(
        image, uuid, extents, e, groups, g, object, size, offset, n, out,
    )
}

// A read of the file of `object`: refusal 3, or what its units give.
pub fn read_file(
    image: &[u8],
    head: &[u8],
    cards: &[u8],
    extents: &[u8],
    groups: &[u8],
    object: u64,
    offset: u64,
    out: &mut [u8],
) -> Result<usize, Refusal>
    requires { ReadReady image.now head.now cards.now extents.now groups.now }
    ensures { gives (number_in result) (count_in result) out.new ≡ gives_read image.now head.now cards.now extents.now groups.now object offset out.old }
{
    let h = format::head::decode_head(head);
    let uuid = h.uuid;
    match book::find::find_card(cards, h.cards as usize, object) {
        Some(i) => {
            let size = format::card::card_size(cards, CARD_BYTES * i);
            read_sized(
                image,
                &uuid,
                extents,
                h.extents as usize,
                groups,
                h.groups as usize,
                object,
                size,
                offset,
                out,
            )
        }
        None => Err(Refusal::NoCard),
    }
}
