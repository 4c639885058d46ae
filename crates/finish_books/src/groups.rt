// The checksum groups after a change: the groups that are missing put in, and each rewritten unit's checksum in its slot.
//
// The rules set a unit's slot in a group added if missing, unit by unit. Here the missing groups are put in first, all by one exchange, so that the records
// behind them are moved once, and then the slots are set where they stand.
ghost use Rattle.std.specs.Prelude.{◌≡◌, true, false, List, map, ℕ, ◌+◌, ◌*◌, ◌/◌, ◌^◌, ◌≤◌, ◌<◌, length, get_or};
ghost use Rattle.std.proofs.Math.Option.{some};
ghost use Rattle.rules.specs.Lists.{pick◌then◌else◌, any};
ghost use Rattle.rules.specs.Sizes.{group_units};
ghost use Rattle.rules.specs.Bytes.{part, patch};
ghost use Rattle.rules.specs.Group.{Group, group_bytes, decode_group, encode_group, set_checksum_slot};
ghost use Rattle.rules.specs.Book.{encode_book};
ghost use Rattle.rules.specs.Rewrite.{Rewritten};
ghost use Rattle.rules.specs.Finish.{finished_groups};
ghost use Rattle.book.specs.Places.{record_at, group_is};
ghost use Rattle.finish_books.specs.Groups.{groups_in, group_right, GroupsRight, GroupsSay, AllThere, UnitsRight, StretchFrom, Gone, MissingOf, MissingFor, PlaceKnown, added, set_slots};

use checksum_group::{GROUP_BYTES, PRESENCE_AT, SLOT_BYTES, SLOTS_AT};
use format::sizes::GROUP_UNITS;

// Bytes of two groups.
const TWO_GROUPS: usize = 2 * GROUP_BYTES;

// The checksum `crc` in slot `slot` of the group at `at`: its presence bit and its four bytes, where they stand.
pub fn put_slot(groups: &mut [u8], at: usize, slot: usize, crc: u32)
    requires group_bytes_in_bounds { (at + group_bytes ≤ length groups.old) × (slot < group_units) }
    requires groups_value { group_right (part at group_bytes groups.old) ≡ true }
    ensures { groups.new ≡ patch groups.old at (encode_group (set_checksum_slot (decode_group (part at group_bytes groups.old)) slot (some crc))) }
{
    let b = at + PRESENCE_AT + slot / 8;
    groups[b] = groups[b] | (1u8 << (slot % 8));
    words::put_le32(groups, at + SLOTS_AT + SLOT_BYTES * slot, crc);
}

// An empty group put in at its place.
fn add_one(groups: &mut [u8], n: usize, object: u64, number: u64)
    requires groups_right { GroupsRight n groups.old }
    requires groups_value { any (group_is object number) (groups_in n groups.old) ≡ false }
    requires n_in_bounds { group_bytes * (n + 1) ≤ length groups.old }
    ensures { GroupsSay (n + 1) (length groups.old) (added object number 1 (groups_in n groups.old)) groups.new }
{
    let mut x = [0u8; GROUP_BYTES];
    checksum_group::group_key(&mut x, 0, object, number);
    let i = book::find::first_group(groups, n, object, number);
    book::splice::splice_records(groups, GROUP_BYTES, n, i, 0, &x, 1);
}

// Two, with neighbouring numbers: no group stands between them.
fn add_two(groups: &mut [u8], n: usize, object: u64, number: u64)
    requires groups_right { GroupsRight n groups.old }
    requires groups_value { (any (group_is object number) (groups_in n groups.old) ≡ false) × (any (group_is object (number + 1)) (groups_in n groups.old) ≡ false) × (number + 1 < 2 ^ 64) }
    requires n_in_bounds { group_bytes * (n + 2) ≤ length groups.old }
    ensures { GroupsSay (n + 2) (length groups.old) (added object number 2 (groups_in n groups.old)) groups.new }
{
    let mut x = [0u8; TWO_GROUPS];
    checksum_group::group_key(&mut x, 0, object, number);
    checksum_group::group_key(&mut x, GROUP_BYTES, object, number + 1);
    let i = book::find::first_group(groups, n, object, number);
    book::splice::splice_records(groups, GROUP_BYTES, n, i, 0, &x, 2);
}

// So many empty groups put in, from a number on.
fn add(groups: &mut [u8], n: usize, object: u64, number: u64, count: usize)
    requires groups_right { GroupsRight n groups.old }
    requires gone { Gone object number count (groups_in n groups.old) × (number < 2 ^ 63) }
    requires count_in_bounds { group_bytes * (n + count) ≤ length groups.old }
    ensures { GroupsSay (n + count) (length groups.old) (added object number count (groups_in n groups.old)) groups.new }
{
    if count == 0 {
        return;
    }
    if count == 1 {
        add_one(groups, n, object, number);
        return;
    }
    add_two(groups, n, object, number);
}

// The place of a group that is there. The last one found is handed over with its number: most units lie in the same group as the one before.
fn place_of(groups: &[u8], n: usize, object: u64, wanted: u64, number: u64, place: usize) -> usize
    requires n_in_bounds { group_bytes * n ≤ length groups.now }
    requires place_known { PlaceKnown object number n place groups.now }
    requires groups_value { any (group_is object wanted) (groups_in n groups.now) ≡ true }
    ensures { (result < n) × (group_is object wanted (record_at decode_group group_bytes groups.now result) ≡ true) }
{
    if wanted == number {
        if place < n {
            return place;
        }
    }
    match book::find::find_group(groups, n, object, wanted) {
        Some(i) => i,
        None => 0,
    }
}

// The checksums of units set, in a book that has a group for each.
fn set_slots(groups: &mut [u8], n: usize, object: u64, units: &[u64], crcs: &[u32])
    requires groups_right { GroupsRight n groups.old }
    requires units_len { length units.now ≡ length crcs.now }
    requires all_there { AllThere object units.now (groups_in n groups.old) }
    ensures { GroupsSay n (length groups.old) (set_slots object units.now crcs.now (groups_in n groups.old)) groups.new }
{
    let mut number: u64 = 0;
    let mut place = n;
    for i in 0..units.len() {
        let wanted = units[i] / GROUP_UNITS as u64;
        place = place_of(groups, n, object, wanted, number, place);
        number = wanted;
        put_slot(
            groups,
            GROUP_BYTES * place,
            (units[i] % GROUP_UNITS as u64) as usize,
            crcs[i],
        );
    }
}

// Where the units that stand one behind the other begin: at the second where the first lies further down.
fn stretch(units: &[u64]) -> usize
    requires { (0 < length units.now) × (1 < length units.now → get_or units.now 0 0 < get_or units.now 1 0) }
    ensures { (object : ℕ) (gs : List Group) → UnitsRight object gs units.now → StretchFrom object gs units.now result }
{
    if units.len() < 2 {
        return 0;
    }
    if units[1] - units[0] == 1 {
        return 0;
    }
    1
}

// One where a group is missing, and zero where it is there.
fn absent(groups: &[u8], n: usize, object: u64, number: u64) -> usize
    requires { group_bytes * n ≤ length groups.now }
    ensures { result ≡ (pick any (group_is object number) (groups_in n groups.now) then 0 else 1) }
{
    let found = book::find::find_group(groups, n, object, number);
    if let Some(_) = found {
        return 0;
    }
    1
}

// The groups that a change has to put in: `count` of them, from `number` on.
#[derive(Clone, Copy)]
pub struct Missing {
    pub number: u64,
    pub count: usize,
}

// Those of two groups, neighbours or one, that are missing.
fn missing_of(groups: &[u8], n: usize, object: u64, a: u64, b: u64) -> Missing
    requires n_in_bounds { group_bytes * n ≤ length groups.now }
    requires a_le_b { (a ≤ b) × (b ≤ a + 1) }
    ensures { MissingOf object a b (groups_in n groups.now) result.number result.count }
{
    let first = absent(groups, n, object, a);
    if a == b {
        return Missing {
            number: a,
            count: first,
        };
    }
    let second = absent(groups, n, object, b);
    if first == 0 {
        return Missing {
            number: b,
            count: second,
        };
    }
    Missing {
        number: a,
        count: 1 + second,
    }
}

// The groups that are missing for units. At most eighteen units behind each other lie in two neighbouring groups.
fn missing_for(groups: &[u8], n: usize, object: u64, units: &[u64]) -> Missing
    requires n_in_bounds { group_bytes * n ≤ length groups.now }
    requires units_right { UnitsRight object (groups_in n groups.now) units.now }
    ensures { MissingFor object units.now (groups_in n groups.now) result.number result.count }
{
    if units.len() == 0 {
        return Missing {
            number: 0,
            count: 0,
        };
    }
    let s = stretch(units);
    let last = units.len() - 1;
    missing_of(
        groups,
        n,
        object,
        units[s] / GROUP_UNITS as u64,
        units[last] / GROUP_UNITS as u64,
    )
}

// How many groups a change will put in.
pub fn missing_groups(groups: &[u8], n: usize, object: u64, units: &[u64]) -> usize
    requires n_in_bounds { group_bytes * n ≤ length groups.now }
    requires units_right { UnitsRight object (groups_in n groups.now) units.now }
    ensures { (rs : List Rewritten) → map (λ r. r.unit) rs ≡ units.now → length (finished_groups object rs (groups_in n groups.now)) ≡ n + result }
{
    let m = missing_for(groups, n, object, units);
    m.count
}

// The book of `n` groups with the units' checksums in their slots.
pub fn finish_groups(groups: &mut [u8], n: usize, object: u64, units: &[u64], crcs: &[u32])
    requires groups_right { GroupsRight n groups.old }
    requires units_right { UnitsRight object (groups_in n groups.old) units.now × (length units.now ≡ length crcs.now) }
    requires groups_in_bounds { group_bytes * length (set_slots object units.now crcs.now (groups_in n groups.old)) ≤ length groups.old }
    ensures { (rs : List Rewritten) → map (λ r. r.unit) rs ≡ units.now → map (λ r. r.checksum) rs ≡ crcs.now → groups.new ≡ encode_book encode_group (length groups.old) (finished_groups object rs (groups_in n groups.old)) }
{
    let m = missing_for(groups, n, object, units);
    let count = m.count;
    add(groups, n, object, m.number, count);
    set_slots(groups, n + count, object, units, crcs);
}
