// The plan of a change: its units looked up, and what each keeps and is given.
ghost use Rattle.std.specs.Prelude.{◌/◌, ◌≤◌, length};
ghost use Rattle.rules.specs.Sizes.{block_bytes, most_allocated};
ghost use Rattle.rules.specs.Store.{Volume};
ghost use Rattle.rules.specs.Units as rules;
ghost use Rattle.kept.specs.Change.{ChangeFits};
ghost use Rattle.rewrite.specs.Arguments.{PlanFor, BlocksOf, DeviceFits, ArraysFit};
ghost use Rattle.rewrite.specs.Answers.{from_card};
ghost use Rattle.file.specs.Planned.{PlanReady, PlanRoom, ChangeFor, UnitsSettled, ChangePlanned};

use format::sizes::BLOCK_BYTES;
use kept::Change;
use rewrite::Plan;

// Bytes of the map of the most blocks.
const MAP_BYTES: usize = 8192;

// The plan of units that are looked up, with the tables of the checksum, its window, and a copy of the used map for the blocks that it takes.
fn plan_units(
    image: &[u8],
    uuid: &[u8],
    used: &[u8],
    limit: usize,
    object: u64,
    change: Change,
    units: &[u64],
    slots: &[u64],
    old: &[u32],
    kept: &mut [u32],
    blocks: &mut [u32],
    hint: u64,
    allocated: u64,
) -> Plan
    requires device_fits { DeviceFits image.now used.now (length image.now / block_bytes) }
    requires used_len_bound { length used.now ≤ 8192 }
    requires change_fits { ChangeFits change.old_size change.new_size change.offset change.len }
    requires arrays_fit { ArraysFit change.new_size (length image.now / block_bytes) units.now slots.now old.now kept.old blocks.old }
    requires allocated_le_most_allocated { allocated ≤ most_allocated }
    ensures skip_in_bounds { (result.skip ≤ length units.now) × (result.allocated ≤ most_allocated) }
    ensures units_settled { (v : Volume) (c : rules.Change) → PlanFor image.now uuid.now used.now (length image.now / block_bytes) object change units.now slots.now old.now v c → UnitsSettled limit v c units.now (from_card hint allocated) kept.new blocks.new result }
{
    let t = crc32c_tables::tables();
    let mut w = [0u8; 4624];
    let mut map = [0u8; MAP_BYTES];
    let n = used.len();
    words::range::copy_part(&mut map, 0, used, 0, n);
    let total = (image.len() / BLOCK_BYTES) as u64;
    rewrite::rewrite_units(
        &t,
        &mut w,
        image,
        uuid,
        &mut map[..n],
        total,
        limit,
        object,
        change,
        units,
        slots,
        old,
        kept,
        blocks,
        hint,
        allocated,
    )
}

// The plan of a change of the file of `object`: the blocks and the checksums of its units looked up into `old` and `slots`, and what each keeps
// and its blocks put into `kept` and `blocks`. Only the first unit may be an untouched hole.
pub fn plan_change(
    image: &[u8],
    uuid: &[u8],
    extents: &[u8],
    e: usize,
    groups: &[u8],
    g: usize,
    used: &[u8],
    limit: usize,
    object: u64,
    change: Change,
    units: &[u64],
    slots: &mut [u64],
    old: &mut [u32],
    kept: &mut [u32],
    blocks: &mut [u32],
    hint: u64,
    allocated: u64,
) -> Plan
    requires plan_ready { PlanReady image.now extents.now groups.now used.now e g }
    requires change_fits { ChangeFits change.old_size change.new_size change.offset change.len }
    requires plan_room { PlanRoom change.new_size units.now slots.old old.old kept.old blocks.old }
    requires allocated_le_most_allocated { allocated ≤ most_allocated }
    ensures skip_in_bounds { (result.skip ≤ length units.now) × (result.allocated ≤ most_allocated) }
    ensures blocks_of { BlocksOf (length image.now / block_bytes) old.new }
    ensures change_planned { (v : Volume) (c : rules.Change) → ChangeFor image.now uuid.now extents.now groups.now used.now e g object change units.now v c → ChangePlanned limit v c units.now hint allocated slots.new old.new kept.new blocks.new result }
{
    crate::lookup::unit_blocks(extents, e, object, units, old);
    crate::lookup::unit_checksums(groups, g, object, units, slots);
    plan_units(
        image, uuid, used, limit, object, change, units, slots, old, kept, blocks, hint, allocated,
    )
}
