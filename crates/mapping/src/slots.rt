// The checksums of the units of a stretch of a file. The units of one group stand in one record, so the book is searched again only where the
// group changes.
ghost use Rattle.std.specs.Prelude.{◌≡◌, map, ℕ, ◌+◌, ◌*◌, ◌^◌, ◌≤◌, ◌<◌, length, get_or};
ghost use Rattle.rules.specs.Lists.{range};
ghost use Rattle.rules.specs.Sizes.{group_units};
ghost use Rattle.rules.specs.Group.{group_bytes, decode_group};
ghost use Rattle.rules.specs.Book.{decode_book};
ghost use Rattle.checksum_group.specs.Slots.{crc_of};
ghost use Rattle.book.specs.Places.{found_in, FoundFirst, group_is};
ghost use Rattle.mapping.specs.Entries.{entry_of, entries, slot_of};
ghost use Rattle.mapping.specs.Slots.{slot_in, GroupWithin};

use checksum_group::GROUP_BYTES;
use format::sizes::GROUP_UNITS;

// Units of a group, counted as units are.
const UNITS: u64 = GROUP_UNITS as u64;

// The entry of what stands in a slot.
fn slot_entry(slot: Option<u32>) -> u64
    ensures { (entry_of result ≡ crc_of slot) × (result ≤ 2 ^ 32) }
{
    match slot {
        Some(crc) => crc as u64 + 1,
        None => 0,
    }
}

// The entry of slot `k` of the group that was found, or 0 where none was.
fn group_entry(groups: &[u8], found: Option<usize>, k: usize) -> u64
    requires group_within { GroupWithin groups.now found }
    requires k_lt_group_units { k < group_units }
    ensures { (entry_of result ≡ slot_in (found_in decode_group group_bytes groups.now found) k) × (result ≤ 2 ^ 32) }
{
    match found {
        Some(i) => slot_entry(checksum_group::checksum_slot_at(groups, GROUP_BYTES * i, k)),
        None => 0,
    }
}

// The group with this number: the one in hand where its number is `last`'s, and else searched.
fn group_of(
    groups: &[u8],
    n: usize,
    object: u64,
    last: u64,
    found: Option<usize>,
    number: u64,
) -> Option<usize>
    requires n_in_bounds { group_bytes * n ≤ length groups.now }
    requires found_first { FoundFirst (group_is object last) decode_group group_bytes n groups.now found }
    ensures { FoundFirst (group_is object number) decode_group group_bytes n groups.now result }
{
    if number == last {
        return found;
    }
    book::find::find_group(groups, n, object, number)
}

// The entries of the units of the file of `object` from `first` on, as a book of `n` groups has them.
pub fn unit_slots(groups: &[u8], n: usize, object: u64, first: u64, slots: &mut [u64])
    requires n_in_bounds { group_bytes * n ≤ length groups.now }
    requires slots_bound { first + length slots.old < 2 ^ 64 }
    ensures { (entries slots.new ≡ map (slot_of (decode_book decode_group group_bytes n groups.now) object) (range first (length slots.old))) × ((i : ℕ) → get_or slots.new i 0 ≤ 2 ^ 32) }
{
    let mut number = first / UNITS;
    let mut found = book::find::find_group(groups, n, object, number);
    let mut i: usize = 0;
    while i < slots.len() {
        let unit = first + i as u64;
        found = group_of(groups, n, object, number, found, unit / UNITS);
        number = unit / UNITS;
        slots[i] = group_entry(groups, found, (unit % UNITS) as usize);
        i += 1;
    }
}
