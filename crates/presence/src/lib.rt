// Which units of a file have a slot in the book of checksum groups: the next unit that has one, the next that has none, and the stretch between them.
//
// A walk goes from group to group and not from unit to unit. It compares the numbers of groups before it makes units of them: in a damaged book a group
// may have any number, and 256 times that need not be one of 64 bits.
#![tactic(auto)]

ghost use Rattle.std.specs.Prelude.{◌≡◌, [], ◌∷◌, ◌+◌, ◌-◌, ◌*◌, ◌/◌, ◌%◌, ◌^◌, ◌≤◌, ◌<◌, min, ltb, length};
ghost use Rattle.rules.specs.Lists.{pick◌then◌else◌, given};
ghost use Rattle.rules.specs.Sizes.{group_units};
ghost use Rattle.rules.specs.Bytes.{part};
ghost use Rattle.rules.specs.Group.{group_bytes, decode_group, checksum_slot};
ghost use Rattle.book.specs.Places.{record_at};
ghost use Rattle.presence.specs.Units.{NextOf, GroupsRight, Placed, groups_in, slotted, number_at, stretch, stretches_from};

use checksum_group::{GROUP_BYTES, PRESENCE_AT, SLOTS_AT};
use format::sizes::GROUP_UNITS;

// Units of a group, counted as units are.
pub const UNITS: u64 = GROUP_UNITS as u64;

// The number of a group that is none of the file's: past every unit that a walk comes to.
const NONE: u64 = 0xffff_ffff_ffff_ffff;

// Where a walk stands: at a unit, and in the book at the first group that is not in front of the unit's.
#[derive(Clone, Copy)]
pub struct Position {
    pub unit: u64,
    pub place: usize,
}

// A stretch that was found: its first unit, the first unit behind it, and where in the book the walk goes on. There is none where it starts at the walk's
// end.
#[derive(Clone, Copy)]
pub struct Span {
    pub first: u64,
    pub end: u64,
    pub place: usize,
}

// The smaller of two numbers.
pub fn least(a: u64, b: u64) -> u64
    ensures { result ≡ min a b }
{
    if a < b {
        return a;
    }
    b
}

// The first slot from `k` on that is present, or is not, as asked, of the group at `at`.
fn next_slot(groups: &[u8], at: usize, k: usize, present: bool) -> usize
    requires group_bytes_in_bounds { at + group_bytes ≤ length groups.now }
    requires k_le_group_units { k ≤ group_units }
    ensures { NextOf (λ j. given (checksum_slot (decode_group (part at group_bytes groups.now)) j)) present k group_units result }
{
    let bits = &groups[at + PRESENCE_AT..at + SLOTS_AT];
    if present {
        return bitmap::next_set(bits, k, GROUP_UNITS);
    }
    bitmap::next_clear(bits, k, GROUP_UNITS)
}

// The same in units: the first unit from `unit` on of the group at `place`, or the first of the group behind it.
fn next_in_group(groups: &[u8], place: usize, unit: u64, present: bool) -> u64
    requires group_bytes_in_bounds { group_bytes * place + group_bytes ≤ length groups.now }
    requires unit_bound { unit < 2 ^ 63 }
    ensures { NextOf (λ u. given (checksum_slot (record_at decode_group group_bytes groups.now place) (u % group_units))) present unit (unit / group_units * group_units + group_units) result }
{
    let k = (unit % UNITS) as usize;
    unit - unit % UNITS + next_slot(groups, GROUP_BYTES * place, k, present) as u64
}

// The number of the group at `place`, where there is one and it is one of the file of `object`.
fn number_at(groups: &[u8], n: usize, object: u64, place: usize) -> u64
    requires { group_bytes * n ≤ length groups.now }
    ensures { result ≡ number_at n groups.now object place }
{
    if place >= n {
        return NONE;
    }
    if checksum_group::group_object(groups, GROUP_BYTES * place) != object {
        return NONE;
    }
    checksum_group::group_number(groups, GROUP_BYTES * place)
}

// The first unit from `from.unit` on of the file of `object` that has a slot, or has none, as asked; `end` where none before it is so.
fn next_unit(
    groups: &[u8],
    n: usize,
    object: u64,
    from: Position,
    end: u64,
    present: bool,
) -> Position
    requires groups_right { GroupsRight n groups.now }
    requires unit_le_end { (from.unit ≤ end) × (end < 2 ^ 63) }
    requires placed { from.unit < end → Placed n groups.now object from.unit from.place }
    ensures next_of { NextOf (slotted (groups_in n groups.now) object) present from.unit end result.unit }
    ensures placed_2 { result.unit < end → Placed n groups.now object result.unit result.place }
{
    let mut unit = from.unit;
    let mut place = from.place;
    while unit < end {
        let number = number_at(groups, n, object, place);
        if number == unit / UNITS {
            unit = next_in_group(groups, place, unit, present);
            if unit / UNITS == number {
                return Position {
                    unit: least(unit, end),
                    place,
                };
            }
            place += 1;
        } else {
            if !present {
                return Position { unit, place };
            }
            if number > (end - 1) / UNITS {
                return Position { unit: end, place };
            }
            unit = number * UNITS;
        }
    }
    Position { unit: end, place }
}

// The first stretch from `from.unit` on up to `end`.
pub fn next_stretch(groups: &[u8], n: usize, object: u64, from: Position, end: u64) -> Span
    requires groups_right { GroupsRight n groups.now }
    requires unit_lt_end { (from.unit < end) × (end < 2 ^ 63) }
    requires placed { Placed n groups.now object from.unit from.place }
    ensures end_value { stretches_from (slotted (groups_in n groups.now) object) from.unit end ≡ (pick ltb result.first end then stretch result.first (result.end - result.first) ∷ stretches_from (slotted (groups_in n groups.now) object) result.end end else []) }
    ensures unit_lt_end_2 { (from.unit < result.end) × (result.first ≤ result.end) × (result.end ≤ end) }
    ensures placed_2 { result.end < end → Placed n groups.now object result.end result.place }
{
    let data = next_unit(groups, n, object, from, end, true);
    let first = data.unit;
    let hole = next_unit(groups, n, object, data, end, false);
    Span {
        first,
        end: hole.unit,
        place: hole.place,
    }
}

// Where a walk from `unit` on starts.
pub fn start_walk(groups: &[u8], n: usize, object: u64, unit: u64) -> Position
    requires { GroupsRight n groups.now }
    ensures { (result.unit ≡ unit) × Placed n groups.now object unit result.place }
{
    Position {
        unit,
        place: book::find::first_group(groups, n, object, unit / UNITS),
    }
}
