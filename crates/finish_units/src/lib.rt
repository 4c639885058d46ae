// What a plan writes into the image: the bytes of each rewritten unit put together, their checksum, and its new blocks.
//
// Everything that is refused has been refused by then. A unit is put together once, checksummed once and written once; blocks that are new were free,
// so that writing a unit leaves the old bytes of the units after it as they were.
#![tactic(auto)]

ghost use Rattle.std.specs.Prelude.{◌≡◌, true, false, ℕ, ◌+◌, ◌-◌, ◌*◌, ◌≤◌, ◌<◌, length, get_or, take};
ghost use Rattle.rules.specs.Lists.{begun};
ghost use Rattle.rules.specs.Sizes.{block_bytes, unit_blocks, unit_bytes, most_size};
ghost use Rattle.rules.specs.Checksum.{unit_checksum};
ghost use Rattle.rules.specs.Store.{Volume};
ghost use Rattle.rules.specs.Units as rules;
ghost use Rattle.rules.specs.Units.{valid_length};
ghost use Rattle.rules.specs.Finish.{write_new};
ghost use Rattle.mapping.specs.Entries.{entries, Inside};
ghost use Rattle.kept.specs.Change.{IsChange, ChangeFits, covers_new};
ghost use Rattle.crc32c_tables.specs.Register.{Tables};
ghost use Rattle.rewrite.specs.Plan.{laid_units};
ghost use Rattle.finish_units.specs.Units.{held_count, new_bytes, UnitWritten};
ghost use Rattle.finish_units.specs.Carry.{UnitsFit, CarriesFor, WrittenAt, CarriedOut};

use format::sizes::{UNIT_BLOCKS, UNIT_BYTES};
use kept::Change;

// How many old bytes a unit is put together from: all that are valid where they were read and checked, none where they were not read or the unit was
// a hole, which has no checksum.
fn held_bytes(change: Change, unit: u64, slot: u64) -> usize
    requires { unit * unit_bytes ≤ most_size }
    ensures { (c : rules.Change) (after : ℕ) → IsChange c change.old_size after change.offset change.len → result ≡ held_count c unit slot }
{
    if slot == 0 {
        return 0;
    }
    if !change.reads_old(unit) {
        return 0;
    }
    kept::tests::valid_length(change.old_size, unit)
}

// The unit put together at the head of the buffer: so many old bytes, zeros up to the new valid length, and over them the caller's part.
fn assemble_unit(
    image: &[u8],
    change: Change,
    bytes: &[u8],
    unit: u64,
    slot: u64,
    old: &[u32],
    buffer: &mut [u8],
)
    requires written { change.len ≡ length bytes.now }
    requires unit_bytes_bound { unit * unit_bytes < change.new_size }
    requires buffer_len { length buffer.old ≡ unit_bytes }
    requires len { length old.now ≡ unit_blocks }
    requires inside { Inside image.now old.now }
    ensures { (c : rules.Change) → IsChange c change.old_size change.new_size change.offset change.len → c.bytes ≡ bytes.now → take (valid_length change.new_size unit) buffer.new ≡ new_bytes c image.now unit slot old.now }
{
    let held = held_bytes(change, unit, slot);
    let valid = kept::tests::valid_length(change.new_size, unit);
    if !change.touches(unit) {
        image::unit::assemble(image, old, held, valid, 0, &bytes[0..0], buffer);
        return;
    }
    let p = change.written_part(unit);
    let from = p.from;
    let end = from + p.count;
    image::unit::assemble(image, old, held, valid, p.at, &bytes[from..end], buffer);
}

// Where the unit stands among the caller's bytes, if the write covers it. If it does not, the unit is put together in the buffer.
fn place_unit(
    image: &[u8],
    change: Change,
    bytes: &[u8],
    unit: u64,
    slot: u64,
    old: &[u32],
    covered: bool,
    buffer: &mut [u8],
) -> usize
    requires written { change.len ≡ length bytes.now }
    requires unit_bytes_bound { unit * unit_bytes < change.new_size }
    requires buffer_len { length buffer.old ≡ unit_bytes }
    requires len { length old.now ≡ unit_blocks }
    requires inside { Inside image.now old.now }
    requires covered_value { (c : rules.Change) (before : ℕ) → IsChange c before change.new_size change.offset change.len → covered ≡ covers_new c unit }
    ensures value { covered ≡ true → (result ≡ unit * unit_bytes - change.offset) × (result + valid_length change.new_size unit ≤ length bytes.now) }
    ensures buffer_after { covered ≡ false → (c : rules.Change) → IsChange c change.old_size change.new_size change.offset change.len → c.bytes ≡ bytes.now → take (valid_length change.new_size unit) buffer.new ≡ new_bytes c image.now unit slot old.now }
{
    if covered {
        return (unit * UNIT_BYTES as u64 - change.offset) as usize;
    }
    assemble_unit(image, change, bytes, unit, slot, old, buffer);
    0
}

// A unit's bytes checksummed, and its new blocks written. The checksum is over the valid bytes alone: no zero behind them is in it.
fn write_part(
    t: &[u32; 4096],
    image: &mut [u8],
    uuid: &[u8],
    object: u64,
    unit: u64,
    bytes: &[u8],
    kept: &[u32],
    blocks: &[u32],
) -> u32
    requires tables { Tables t.now }
    requires bytes_len_bound { length bytes.now ≤ unit_bytes }
    requires kept_len { length kept.now ≡ length blocks.now }
    requires blocks_len_bound { length blocks.now ≤ unit_blocks }
    requires by_index { (i : ℕ) → i < length blocks.now → (get_or blocks.now i 0 + 1) * block_bytes ≤ length image.old }
    ensures value { result ≡ unit_checksum uuid.now object unit bytes.now }
    ensures image_after { image.new ≡ write_new bytes.now 0 (entries kept.now) blocks.now image.old }
{
    let crc = crc32c::unit_checksum_with(t, uuid, object, unit, bytes);
    image::put::write_new(image, bytes, kept, blocks);
    crc
}

// One unit carried out: its new bytes, taken from the caller or put together, are checksummed, and its new blocks are written.
fn write_unit(
    t: &[u32; 4096],
    image: &mut [u8],
    uuid: &[u8],
    object: u64,
    change: Change,
    bytes: &[u8],
    unit: u64,
    slot: u64,
    old: &[u32],
    kept: &[u32],
    blocks: &[u32],
    buffer: &mut [u8],
) -> u32
    requires tables { Tables t.now }
    requires written { change.len ≡ length bytes.now }
    requires unit_bytes_bound { unit * unit_bytes < change.new_size }
    requires buffer_len { length buffer.old ≡ unit_bytes }
    requires len { length old.now ≡ unit_blocks }
    requires inside { Inside image.old old.now }
    requires kept_len { length kept.now ≡ length blocks.now }
    requires blocks_len_bound { length blocks.now ≤ unit_blocks }
    requires by_index { (i : ℕ) → i < length blocks.now → (get_or blocks.now i 0 + 1) * block_bytes ≤ length image.old }
    ensures { (c : rules.Change) → IsChange c change.old_size change.new_size change.offset change.len → c.bytes ≡ bytes.now → UnitWritten c unit slot uuid.now object old.now kept.now blocks.now image.old result image.new }
{
    let covered = change.covers_new(unit);
    let from = place_unit(image, change, bytes, unit, slot, old, covered, buffer);
    let n = kept::tests::valid_length(change.new_size, unit);
    let part = image::unit::unit_bytes(bytes, buffer, covered, from, n);
    write_part(t, image, uuid, object, unit, part, kept, blocks)
}

// The unit at place `j` of the arrays carried out.
fn write_at(
    t: &[u32; 4096],
    image: &mut [u8],
    uuid: &[u8],
    object: u64,
    change: Change,
    bytes: &[u8],
    units: &[u64],
    slots: &[u64],
    old: &[u32],
    kept: &[u32],
    blocks: &[u32],
    buffer: &mut [u8],
    j: usize,
) -> u32
    requires tables { Tables t.now }
    requires written { change.len ≡ length bytes.now }
    requires buffer_len { length buffer.old ≡ unit_bytes }
    requires units_fit { UnitsFit image.old change.new_size units.now slots.now old.now kept.now blocks.now }
    requires j_in_bounds { j < length units.now }
    ensures { (c : rules.Change) → IsChange c change.old_size change.new_size change.offset change.len → c.bytes ≡ bytes.now → WrittenAt c change.new_size uuid.now object units.now slots.now old.now kept.now blocks.now j image.old result image.new }
{
    let unit = units[j];
    let first = UNIT_BLOCKS * j;
    let last = first + UNIT_BLOCKS;
    let end = first + kept::tests::unit_blocks(change.new_size, unit);
    write_unit(
        t,
        image,
        uuid,
        object,
        change,
        bytes,
        unit,
        slots[j],
        &old[first..last],
        &kept[first..end],
        &blocks[first..end],
        buffer,
    )
}

// The units one after another, each put together in the same buffer.
fn write_each(
    t: &[u32; 4096],
    image: &mut [u8],
    uuid: &[u8],
    object: u64,
    change: Change,
    bytes: &[u8],
    units: &[u64],
    slots: &[u64],
    old: &[u32],
    kept: &[u32],
    blocks: &[u32],
    crcs: &mut [u32],
    buffer: &mut [u8],
)
    requires tables { Tables t.now }
    requires written { change.len ≡ length bytes.now }
    requires units_fit { UnitsFit image.old change.new_size units.now slots.now old.now kept.now blocks.now }
    requires units_in_bounds { length units.now ≤ length crcs.old }
    requires buffer_len { length buffer.old ≡ unit_bytes }
    ensures { (limit : ℕ) (v : Volume) (c : rules.Change) → CarriesFor limit v c image.old uuid.now object change.old_size change.new_size change.offset bytes.now units.now slots.now old.now kept.now blocks.now → CarriedOut (laid_units limit v c units.now blocks.now) (length units.now) image.old image.new crcs.new }
{
    for j in 0..units.len() {
        crcs[j] = write_at(
            t, image, uuid, object, change, bytes, units, slots, old, kept, blocks, buffer, j,
        );
    }
}

// A plan carried out on the image: the new blocks of every rewritten unit are written, and the checksums of their bytes stand in `crcs`, one for each.
pub fn write_units(
    t: &[u32; 4096],
    image: &mut [u8],
    uuid: &[u8],
    object: u64,
    old_size: u64,
    new_size: u64,
    offset: u64,
    bytes: &[u8],
    units: &[u64],
    slots: &[u64],
    old: &[u32],
    kept: &[u32],
    blocks: &[u32],
    crcs: &mut [u32],
)
    requires tables { Tables t.now }
    requires change_fits { ChangeFits old_size new_size offset (length bytes.now) }
    requires units_fit { UnitsFit image.old new_size units.now slots.now old.now kept.now blocks.now }
    requires units_in_bounds { length units.now ≤ length crcs.old }
    ensures { (limit : ℕ) (v : Volume) (c : rules.Change) → CarriesFor limit v c image.old uuid.now object old_size new_size offset bytes.now units.now slots.now old.now kept.now blocks.now → CarriedOut (laid_units limit v c units.now blocks.now) (length units.now) image.old image.new crcs.new }
{
    let change = Change {
        old_size,
        new_size,
        offset,
        len: bytes.len(),
    };
    let mut buffer = [0u8; UNIT_BYTES];
    write_each(
        t,
        image,
        uuid,
        object,
        change,
        bytes,
        units,
        slots,
        old,
        kept,
        blocks,
        crcs,
        &mut buffer,
    );
}
