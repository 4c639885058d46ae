// A change to a file: planned, decided and carried out.
//
// The plan stores nothing, and whether the books that it leaves fit is known before anything is stored: a refused change leaves every byte as it was.
#![tactic(auto)]

ghost use Rattle.std.specs.Prelude.{◌≡◌, ◌*◌, ◌/◌, ◌≤◌, length};
ghost use Rattle.rules.specs.Sizes.{block_bytes, most_allocated};
ghost use Rattle.rules.specs.Extent.{extent_bytes};
ghost use Rattle.rules.specs.Store.{Volume};
ghost use Rattle.rules.specs.Units as rules;
ghost use Rattle.lent.specs.Lent.{store_of, SamePlaces};
ghost use Rattle.kept.specs.Change.{ChangeFits};
ghost use Rattle.rewrite.specs.Arguments.{BlocksOf};
ghost use Rattle.file.specs.Change.{numbered};
ghost use Rattle.file.specs.Planned.{PlanReady, PlanRoom, ChangeFor, ChangePlanned};
ghost use Rattle.change.specs.Change.{ChangeReady, HeadSays, ArraysEach, changed};

use format::sizes::UNIT_BLOCKS;
use kept::Change;
use lent::Store;
use rewrite::Plan;

// Units of a change at most: those that a write of the most bytes touches, and the old tail unit before them.
const MOST_UNITS: usize = 18;

// Their blocks.
const MOST_BLOCKS: usize = 288;

// Bytes of the extents that a change puts in at most: one for each block, and the two ends of what it cuts.
const MADE_BYTES: usize = 9570;

// The plan of a change, from the store's buffers.
fn plan_change(
    store: &Store<'_>,
    uuid: &[u8],
    e: usize,
    g: usize,
    limit: usize,
    object: u64,
    change: Change,
    units: &[u64],
    slots: &mut [u64],
    old: &mut [u32],
    kept: &mut [u32],
    blocks: &mut [u32],
    hint: u64,
    allocated: u64,
) -> Plan
    requires plan_ready { PlanReady store.now.image.now store.now.extents.now store.now.groups.now store.now.used.now e g }
    requires change_fits { ChangeFits change.old_size change.new_size change.offset change.len }
    requires plan_room { PlanRoom change.new_size units.now slots.old old.old kept.old blocks.old }
    requires allocated_le_most_allocated { allocated ≤ most_allocated }
    ensures skip_in_bounds { (result.skip ≤ length units.now) × (result.allocated ≤ most_allocated) }
    ensures blocks_of { BlocksOf (length store.now.image.now / block_bytes) old.new }
    ensures change_planned { (v : Volume) (c : rules.Change) → ChangeFor store.now.image.now uuid.now store.now.extents.now store.now.groups.now store.now.used.now e g object change units.now v c → ChangePlanned limit v c units.now hint allocated slots.new old.new kept.new blocks.new result }
{
    file::plan::plan_change(
        store.image,
        uuid,
        store.extents,
        e,
        store.groups,
        g,
        store.used,
        limit,
        object,
        change,
        units,
        slots,
        old,
        kept,
        blocks,
        hint,
        allocated,
    )
}

// The plan of a change in the lent arrays, and what becomes of it. The head counts `n` cards, `m` extents and `g` groups.
fn change_units(
    store: &mut Store<'_>,
    n: usize,
    m: usize,
    g: usize,
    uuid: &[u8],
    hint: u64,
    limit: usize,
    object: u64,
    change: Change,
    bytes: &[u8],
    allocated: u64,
    seconds: u64,
    nanoseconds: u64,
    units: &[u64],
    slots: &mut [u64],
    old: &mut [u32],
    kept: &mut [u32],
    blocks: &mut [u32],
    made: &mut [u8],
) -> u32
    requires change_ready { ChangeReady (store_of store.old) object change bytes.now allocated seconds nanoseconds units.now }
    requires head_says { HeadSays (store_of store.old) n m g hint uuid.now }
    requires arrays_each { ArraysEach units.now slots.old old.old kept.old blocks.old × (extent_bytes * 290 ≤ length made.old) }
    ensures same_places { SamePlaces store.old store.new }
    ensures changed { numbered result (store_of store.new) ≡ changed limit (store_of store.old) object change bytes.now allocated seconds nanoseconds units.now }
{
    let plan = plan_change(
        store, uuid, m, g, limit, object, change, units, slots, old, kept, blocks, hint, allocated,
    );
    if plan.number != 0 {
        return plan.number;
    }
    let skip = plan.skip;
    let from = UNIT_BLOCKS * skip;
    carry::carry_change(
        store,
        n,
        m,
        g,
        uuid,
        object,
        change.old_size,
        change.new_size,
        change.offset,
        bytes,
        plan.allocated,
        seconds,
        nanoseconds,
        plan.hint,
        &units[skip..],
        &slots[skip..],
        &old[from..],
        &kept[from..],
        &blocks[from..],
        made,
    )
}

// A change of the file of `object`, whose card counts `allocated` blocks: 9 to 16, or 0 and the store as the rules leave it.
pub fn change_file(
    store: &mut Store<'_>,
    limit: usize,
    object: u64,
    change: Change,
    bytes: &[u8],
    allocated: u64,
    seconds: u64,
    nanoseconds: u64,
    units: &[u64],
) -> u32
    requires { ChangeReady (store_of store.old) object change bytes.now allocated seconds nanoseconds units.now }
    ensures same_places { SamePlaces store.old store.new }
    ensures changed { numbered result (store_of store.new) ≡ changed limit (store_of store.old) object change bytes.now allocated seconds nanoseconds units.now }
{
    let h = store.decode_head();
    let uuid = h.uuid;
    let mut slots = [0u64; MOST_UNITS];
    let mut old = [0u32; MOST_BLOCKS];
    let mut kept = [0u32; MOST_BLOCKS];
    let mut blocks = [0u32; MOST_BLOCKS];
    let mut made = [0u8; MADE_BYTES];
    let k = units.len();
    let most = UNIT_BLOCKS * k;
    change_units(
        store,
        h.cards as usize,
        h.extents as usize,
        h.groups as usize,
        &uuid,
        h.hint,
        limit,
        object,
        change,
        bytes,
        allocated,
        seconds,
        nanoseconds,
        units,
        &mut slots[..k],
        &mut old[..most],
        &mut kept[..most],
        &mut blocks[..most],
        &mut made,
    )
}
