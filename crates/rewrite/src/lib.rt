// The plan of a change: what `rewrite_unit` makes of each unit, and refusals 9 to 14.
//
// A plan stores nothing in the store: it says which blocks each unit keeps and which it is given. The new bytes and their checksums follow from
// the volume and the change, and no refusal depends on them, so they are made where the plan is carried out.
#![tactic(auto)]

ghost use Rattle.std.specs.Prelude.{◌≡◌, Bool, true, false, List, ℕ, ◌+◌, ◌-◌, ◌*◌, ◌^◌, ◌≤◌, ◌<◌, length, take, get_or};
ghost use Rattle.rules.specs.Bytes.{part};
ghost use Rattle.rules.specs.Sizes.{unit_bytes, unit_blocks, most_blocks, most_allocated};
ghost use Rattle.rules.specs.Store.{Volume};
ghost use Rattle.rules.specs.Units as rules;
ghost use Rattle.rules.specs.Kept.{blocks_after, retained_blocks};
ghost use Rattle.rules.specs.Rewrite as rewriting;
ghost use Rattle.crc32c_tables.specs.Register.{Tables};
ghost use Rattle.mapping.specs.Entries.{entry_of, entries, Inside};
ghost use Rattle.inspect.specs.Mapped.{inspect_mapped};
ghost use Rattle.allocation.specs.Carried.{Carried};
ghost use Rattle.kept.specs.Change.{IsChange};
ghost use Rattle.rewrite.specs.Steps.{old_as};
ghost use Rattle.rewrite.specs.Arguments.{Described, LookedUp, PlanFor, BlocksOf, DeviceFits, ArraysFit};
ghost use Rattle.rewrite.specs.Given.{Gives, Lays};
ghost use Rattle.rewrite.specs.Answers.{from_card, Carries, ChangedAt, UnitPlanned, UnitsPlanned};

use format::card::{Card, Time};
use format::sizes::UNIT_BLOCKS;
use kept::Change;

// Refusal 13: too few blocks are free.
const NO_SPACE: u32 = 13;

// Refusal 14: the card's count disagrees.
const COUNT_DISAGREES: u32 = 14;

// The most blocks that a card counts.
const MOST_ALLOCATED: u64 = 34359738367;

// What is known of a unit's old bytes: a refusal by its number; a hole that no written byte falls into; nothing, for they are not read or there are
// none; or that they were read and are right.
#[derive(Clone, Copy)]
pub enum Old {
    Refused(u32),
    Untouched,
    Unread,
    Verified,
}

// What passes from unit to unit: the hint, the card's count, and the cursors of the blocks taken. The blocks themselves are set in the map.
#[derive(Clone, Copy)]
pub struct Progress {
    pub hint: u64,
    pub allocated: u64,
    pub cursors: allocation::Cursors,
}

// The blocks of a unit: whether there were enough, how many were taken, and the hint and the cursors after it.
#[derive(Clone, Copy)]
pub struct Given {
    pub enough: bool,
    pub count: usize,
    pub hint: u64,
    pub cursors: allocation::Cursors,
}

// The answer to one unit: the number of its refusal or 0, whether it is rewritten (an untouched hole is not), and what the next one finds.
#[derive(Clone, Copy)]
pub struct UnitPlan {
    pub number: u32,
    pub rewritten: bool,
    pub progress: Progress,
}

// The answer to all: the number of the first refusal or 0, how many units at the front are untouched holes, and the hint and the count after them.
#[derive(Clone, Copy)]
pub struct Plan {
    pub number: u32,
    pub skip: usize,
    pub hint: u64,
    pub allocated: u64,
}

// What is known of a unit's old bytes, where `slot` and `old` were looked up for it: they are read and checked if there are any and the change does
// not cover all of them.
fn verify_old(
    t: &[u32; 4096],
    w: &mut [u8],
    image: &[u8],
    uuid: &[u8],
    object: u64,
    change: Change,
    unit: u64,
    slot: u64,
    old: &[u32],
) -> Old
    requires tables { Tables t.now }
    requires w_len { length w.old ≡ 4624 }
    requires unit_bytes_bound { (unit * unit_bytes ≤ change.new_size) × (slot ≤ 2 ^ 32) }
    requires len { (length old.now ≡ unit_blocks) × Inside image.now old.now }
    ensures { (c : rules.Change) → IsChange c change.old_size change.new_size change.offset change.len → result ≡ old_as c unit (inspect_mapped image.now uuid.now object change.old_size unit (entries old.now) (entry_of slot)) }
{
    if !change.reads_old(unit) {
        return Old::Unread;
    }
    match inspect::inspect_unit(t, w, image, uuid, object, change.old_size, unit, slot, old) {
        Err(r) => Old::Refused(r.number()),
        Ok(inspect::Inspected::Checked) => Old::Verified,
        Ok(inspect::Inspected::Hole) => {
            if change.touches(unit) {
                return Old::Unread;
            }
            Old::Untouched
        }
    }
}

// The blocks of a unit that keeps the first `n` entries of `kept`: the free ones that it wants are taken, which sets them in the map, and put into
// the places that are not kept.
fn give_blocks(
    map: &mut [u8],
    total: u64,
    progress: Progress,
    kept: &[u32],
    n: usize,
    blocks: &mut [u32],
) -> Given
    requires total_le_most_blocks { (total ≤ most_blocks) × (total ≤ 8 * length map.old) }
    requires n_le_unit_blocks { (n ≤ unit_blocks) × (length kept.now ≡ unit_blocks) × (length blocks.old ≡ unit_blocks) }
    ensures count_le_unit_blocks { result.count ≤ unit_blocks }
    ensures by_index { (used : ℕ → Bool) (taken : List ℕ) → Carried total used taken map.old progress.cursors.past → Gives total used taken progress.hint (entries (take n kept.now)) n map.new blocks.new result }
{
    let want = kept::blocks::wanted(&kept[..n]);
    let cursors = progress.cursors;
    let a = allocation::allocate_unit(map, total, progress.hint, cursors, want);
    let t = a.taken;
    let new = t.blocks;
    let past = a.cursors;
    if want <= t.count {
        kept::blocks::assign(&kept[..n], &new, blocks);
        return Given {
            enough: true,
            count: t.count,
            hint: a.hint,
            cursors: past,
        };
    }
    Given {
        enough: false,
        count: t.count,
        hint: a.hint,
        cursors: past,
    }
}

// A unit that is refused: what it leaves is not asked for.
fn refused(number: u32, progress: Progress) -> UnitPlan
    ensures { (result.number ≡ number) × (result.rewritten ≡ true) × (result.progress.allocated ≡ progress.allocated) }
{
    UnitPlan {
        number,
        rewritten: true,
        progress,
    }
}

// The blocks that the file's card counts after a unit: the card is changed in place. Its times are not asked for.
fn counted(object: u64, size: u64, allocated: u64, gone: u64, given: u64) -> u64
    requires { (gone ≤ allocated) × (allocated + given < 2 ^ 64) }
    ensures { result ≡ allocated - gone + given }
{
    let time = Time {
        seconds: 0,
        nanoseconds: 0,
    };
    let card = Card {
        object,
        size,
        allocated,
        changed: time,
        created: time,
    };
    let after = count::card_after(card, gone, given);
    after.allocated
}

// The new mapping of a unit whose old blocks are `old`, and refusals 13 and 14: which it keeps, which it is given, and what the next unit finds.
fn lay_out(
    map: &mut [u8],
    total: u64,
    limit: usize,
    object: u64,
    change: Change,
    unit: u64,
    verified: bool,
    old: &[u32],
    kept: &mut [u32],
    blocks: &mut [u32],
    progress: Progress,
) -> UnitPlan
    requires total_le_most_blocks { (total ≤ most_blocks) × (total ≤ 8 * length map.old) }
    requires unit_bytes_bound { (unit * unit_bytes ≤ change.new_size) × (progress.allocated ≤ most_allocated) }
    requires len { (length old.now ≡ unit_blocks) × (length kept.old ≡ unit_blocks) × (length blocks.old ≡ unit_blocks) }
    ensures rewritten_value { (result.rewritten ≡ true) × (result.progress.allocated ≤ most_allocated) }
    ensures lays { (c : rules.Change) (used : ℕ → Bool) (taken : List ℕ) → IsChange c change.old_size change.new_size change.offset change.len → Carried total used taken map.old progress.cursors.past → Lays total used taken progress.hint progress.allocated (entries old.now) (retained_blocks limit c unit verified (entries old.now)) (blocks_after c unit) map.new kept.new blocks.new result }
{
    let n = change.retained_blocks(limit, unit, verified, old, kept);
    let g = give_blocks(map, total, progress, kept, n, blocks);
    if !g.enough {
        return refused(NO_SPACE, progress);
    }
    let gone = kept::blocks::count_superseded(old, &kept[..n]) as u64;
    let allocated = progress.allocated;
    if allocated < gone {
        return refused(COUNT_DISAGREES, progress);
    }
    let count = counted(object, change.new_size, allocated, gone, g.count as u64);
    if MOST_ALLOCATED < count {
        return refused(COUNT_DISAGREES, progress);
    }
    let cursors = g.cursors;
    let left = Progress {
        hint: g.hint,
        allocated: count,
        cursors,
    };
    UnitPlan {
        number: 0,
        rewritten: true,
        progress: left,
    }
}

// `rewrite_unit`, as far as a plan goes: what is known of the old bytes, and then the new mapping. `slot` and `old` were looked up for the unit.
fn rewrite_unit(
    t: &[u32; 4096],
    w: &mut [u8],
    image: &[u8],
    uuid: &[u8],
    map: &mut [u8],
    total: u64,
    limit: usize,
    object: u64,
    change: Change,
    unit: u64,
    slot: u64,
    old: &[u32],
    kept: &mut [u32],
    blocks: &mut [u32],
    progress: Progress,
) -> UnitPlan
    requires tables { Tables t.now }
    requires w_len { length w.old ≡ 4624 }
    requires device_fits { DeviceFits image.now map.old total }
    requires unit_bytes_bound { (unit * unit_bytes ≤ change.new_size) × (slot ≤ 2 ^ 32) × (progress.allocated ≤ most_allocated) }
    requires len { (length old.now ≡ unit_blocks) × (length kept.old ≡ unit_blocks) × (length blocks.old ≡ unit_blocks) }
    requires blocks_of { BlocksOf total old.now }
    ensures allocated_le_most_allocated { result.progress.allocated ≤ most_allocated }
    ensures unit_planned { (v : Volume) (c : rules.Change) (p : rewriting.Progress) → Described image.now uuid.now total object change v c → LookedUp v c unit slot old.now → Carries v p map.old progress → UnitPlanned limit v c unit p map.new kept.new blocks.new result }
{
    match verify_old(t, w, image, uuid, object, change, unit, slot, old) {
        Old::Refused(n) => refused(n, progress),
        Old::Untouched => UnitPlan {
            number: 0,
            rewritten: false,
            progress,
        },
        Old::Unread => lay_out(
            map, total, limit, object, change, unit, false, old, kept, blocks, progress,
        ),
        Old::Verified => lay_out(
            map, total, limit, object, change, unit, true, old, kept, blocks, progress,
        ),
    }
}

// `rewrite_unit` for the `i`-th of the units: its slot, and its sixteen entries of `old`, `kept` and `blocks`.
fn rewrite_at(
    t: &[u32; 4096],
    w: &mut [u8],
    image: &[u8],
    uuid: &[u8],
    map: &mut [u8],
    total: u64,
    limit: usize,
    object: u64,
    change: Change,
    units: &[u64],
    slots: &[u64],
    old: &[u32],
    kept: &mut [u32],
    blocks: &mut [u32],
    i: usize,
    progress: Progress,
) -> UnitPlan
    requires tables { Tables t.now }
    requires w_len { length w.old ≡ 4624 }
    requires device_fits { DeviceFits image.now map.old total }
    requires arrays_fit { ArraysFit change.new_size total units.now slots.now old.now kept.old blocks.old }
    requires i_in_bounds { (i < length units.now) × (progress.allocated ≤ most_allocated) }
    ensures allocated_le_most_allocated { result.progress.allocated ≤ most_allocated }
    ensures changed_at { ChangedAt i kept.old kept.new × ChangedAt i blocks.old blocks.new }
    ensures unit_planned { (v : Volume) (c : rules.Change) (p : rewriting.Progress) → Described image.now uuid.now total object change v c → LookedUp v c (get_or units.now i 0) (get_or slots.now i 0) (part (unit_blocks * i) unit_blocks old.now) → Carries v p map.old progress → UnitPlanned limit v c (get_or units.now i 0) p map.new (part (unit_blocks * i) unit_blocks kept.new) (part (unit_blocks * i) unit_blocks blocks.new) result }
{
    let a = UNIT_BLOCKS * i;
    let e = a + UNIT_BLOCKS;
    rewrite_unit(
        t,
        w,
        image,
        uuid,
        map,
        total,
        limit,
        object,
        change,
        units[i],
        slots[i],
        &old[a..e],
        &mut kept[a..e],
        &mut blocks[a..e],
        progress,
    )
}

// How many units at the front are untouched holes, after one more unit.
fn skipped(skip: usize, rewritten: bool) -> usize
    requires { skip + 1 < 2 ^ 64 }
    ensures { (rewritten ≡ true → result ≡ skip) × (rewritten ≡ false → result ≡ skip + 1) × (result ≤ skip + 1) }
{
    if rewritten {
        return skip;
    }
    skip + 1
}

// `rewrite_units`, as far as a plan goes: each unit in turn, and the first refusal of 9 to 14. `map` is a copy of the used map, in which the blocks
// taken are set; `slots` has what was looked up of each unit's checksum, `old` of its sixteen blocks. What each keeps and its blocks go to `kept`
// and `blocks`. Only the first unit may be an untouched hole: each other is touched.
pub fn rewrite_units(
    t: &[u32; 4096],
    w: &mut [u8],
    image: &[u8],
    uuid: &[u8],
    map: &mut [u8],
    total: u64,
    limit: usize,
    object: u64,
    change: Change,
    units: &[u64],
    slots: &[u64],
    old: &[u32],
    kept: &mut [u32],
    blocks: &mut [u32],
    hint: u64,
    allocated: u64,
) -> Plan
    requires tables { Tables t.now }
    requires w_len { length w.old ≡ 4624 }
    requires device_fits { DeviceFits image.now map.old total }
    requires arrays_fit { ArraysFit change.new_size total units.now slots.now old.now kept.old blocks.old }
    requires allocated_le_most_allocated { allocated ≤ most_allocated }
    ensures skip_in_bounds { (result.skip ≤ length units.now) × (result.allocated ≤ most_allocated) }
    ensures units_planned { (v : Volume) (c : rules.Change) → PlanFor image.now uuid.now map.old total object change units.now slots.now old.now v c → UnitsPlanned limit v c units.now (from_card hint allocated) map.new kept.new blocks.new result }
{
    let cursors = allocation::no_cursors();
    let mut progress = Progress {
        hint,
        allocated,
        cursors,
    };
    let mut skip: usize = 0;
    for i in 0..units.len() {
        let r = rewrite_at(
            t, w, image, uuid, map, total, limit, object, change, units, slots, old, kept, blocks,
            i, progress,
        );
        if r.number != 0 {
            return Plan {
                number: r.number,
                skip,
                hint,
                allocated,
            };
        }
        skip = skipped(skip, r.rewritten);
        progress = r.progress;
    }
    Plan {
        number: 0,
        skip,
        hint: progress.hint,
        allocated: progress.allocated,
    }
}
