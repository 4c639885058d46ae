// Checksum groups, for tests: a record of 1,073 bytes through the struct in hand. A record of another length, or a slot past the last, changes nothing
// and answers as an absent slot does.
use checksum_group::GROUP_BYTES;
use format::sizes::GROUP_UNITS;

// The length that `compact_group` keeps of a group's value.
#[unsafe(no_mangle)]
pub extern "C" fn sangueko_probe_compact_group(group: &[u8]) -> usize {
    if group.len() != GROUP_BYTES {
        return 0;
    }
    checksum_group::compact_group(checksum_group::decode_group(group, 0))
}

// The checksum in slot `n`, or 2^32 where none is present.
#[unsafe(no_mangle)]
pub extern "C" fn sangueko_probe_checksum_slot(group: &[u8], n: usize) -> u64 {
    if group.len() != GROUP_BYTES || GROUP_UNITS <= n {
        return 0x1_0000_0000;
    }
    let slot = checksum_group::checksum_slot_at(group, 0, n);
    match slot {
        Some(crc) => crc as u64,
        None => 0x1_0000_0000,
    }
}

// What a caller says of a slot: a checksum, or anything above 32 bits for none.
fn slot_of(crc: u64) -> Option<u32> {
    if crc < 0x1_0000_0000 {
        return Some(crc as u32);
    }
    None
}

// Slot `n` set, or cleared.
#[unsafe(no_mangle)]
pub extern "C" fn sangueko_probe_set_checksum_slot(group: &mut [u8], n: usize, crc: u64) {
    if group.len() != GROUP_BYTES || GROUP_UNITS <= n {
        return;
    }
    let object = checksum_group::group_object(group, 0);
    let number = checksum_group::group_number(group, 0);
    let g = checksum_group::decode_group(group, 0);
    let changed = checksum_group::set_checksum_slot(g, n, slot_of(crc));
    checksum_group::encode_group(group, 0, object, number, changed);
}
