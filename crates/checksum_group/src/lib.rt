// A checksum group in hand: the checksums of 256 units of a file, as 32 presence bytes and 256 slot values.
#![tactic(auto)]

ghost use Rattle.std.specs.Prelude.{◌≡◌, ℕ, ◌+◌, ◌-◌, ◌*◌, ◌/◌, ◌%◌, ◌^◌, ◌≤◌, ◌<◌, eqb, length, get_or, set};
ghost use mathlib.Core.List.{flat_map};
ghost use Rattle.std.proofs.Math.Option.{none, some};
ghost use Rattle.std.specs.Int.Count.{count_leading_zeros};
ghost use Rattle.rules.specs.Bytes.{part, patch};
ghost use Rattle.rules.specs.Lists.{range, all};
ghost use Rattle.rules.specs.Sizes.{group_units};
ghost use Rattle.rules.specs.Group.{group_bytes, group_key, slot_bytes, encode_group, decode_group, group_fixed, absent_zero, empty_group, checksum_slot, set_checksum_slot, up_to_present};
ghost use Rattle.format.specs.Records.{key_bytes};
ghost use Rattle.checksum_group.specs.Slots.{presence_bytes, slot_width, slots_from, slots_of, group_of, crc_of, value_of, value_bytes, values_at, slot_right, UpTo};

use format::key::KEY_BYTES;
use format::sizes::GROUP_UNITS;

// Bytes of a group: its key, the presence bits and the slots.
pub const GROUP_BYTES: usize = SLOTS_AT + SLOT_BYTES * GROUP_UNITS;

// Bytes of the presence bits, and where in a group they stand.
pub const PRESENCE_BYTES: usize = 32;

pub const PRESENCE_AT: usize = KEY_BYTES;

// Bytes of a slot, and where in a group the first stands.
pub const SLOT_BYTES: usize = 4;

pub const SLOTS_AT: usize = PRESENCE_AT + PRESENCE_BYTES;

// The byte of its key that stands between object and number.
const GROUP_TAG: u8 = 4;

// The presence bits, slot n at bit n mod 8 of byte n div 8, and the slots' values.
#[derive(Drop)]
pub struct ChecksumGroup {
    pub present: [u8; PRESENCE_BYTES],
    pub slots: [u32; GROUP_UNITS],
}

// A group with no slot present.
pub fn empty_group() -> ChecksumGroup
    ensures { (object number : ℕ) → group_of object number result ≡ empty_group object number }
{
    ChecksumGroup {
        present: [0; PRESENCE_BYTES],
        slots: [0; GROUP_UNITS],
    }
}

// Bit `k` of a byte, counted from the low bit, is set.
fn bit_at(byte: u8, k: usize) -> bool
    requires { k < 8 }
    ensures { result ≡ eqb (byte / 2 ^ k % 2) 1 }
{
    (byte >> k) % 2 == 1
}

// The checksum in slot `n`, if it is present.
pub fn checksum_slot(g: ChecksumGroup, n: usize) -> Option<u32>
    requires { n < group_units }
    ensures { (object number : ℕ) → crc_of result ≡ checksum_slot (group_of object number g) n }
{
    let b = n / 8;
    if bit_at(g.present[b], n % 8) {
        Some(g.slots[n])
    } else {
        None
    }
}

// The same of the group at `at`: one slot is read without the others.
pub fn checksum_slot_at(s: &[u8], at: usize, n: usize) -> Option<u32>
    requires group_bytes_in_bounds { at + group_bytes ≤ length s.now }
    requires n_lt_group_units { n < group_units }
    ensures { crc_of result ≡ checksum_slot (decode_group (part at group_bytes s.now)) n }
{
    if bit_at(s[at + PRESENCE_AT + n / 8], n % 8) {
        Some(words::le32(s, at + SLOTS_AT + SLOT_BYTES * n))
    } else {
        None
    }
}

// The group with a checksum in slot `n`.
fn with_slot(g: ChecksumGroup, n: usize, crc: u32) -> ChecksumGroup
    requires { n < group_units }
    ensures { slots_of result ≡ set (slots_of g) n (some crc) }
{
    let mut h = g;
    let b = n / 8;
    h.present[b] = h.present[b] | (1u8 << (n % 8));
    h.slots[n] = crc;
    h
}

// The group with slot `n` cleared.
fn without_slot(g: ChecksumGroup, n: usize) -> ChecksumGroup
    requires { n < group_units }
    ensures { slots_of result ≡ set (slots_of g) n none }
{
    let mut h = g;
    let b = n / 8;
    h.present[b] = h.present[b] & !(1u8 << (n % 8));
    h.slots[n] = 0;
    h
}

// The group with slot `n` set, or cleared, by value.
pub fn set_checksum_slot(g: ChecksumGroup, n: usize, slot: Option<u32>) -> ChecksumGroup
    requires { n < group_units }
    ensures { (object number : ℕ) → group_of object number result ≡ set_checksum_slot (group_of object number g) n (crc_of slot) }
{
    match slot {
        Some(crc) => with_slot(g, n, crc),
        None => without_slot(g, n),
    }
}

// How many of the presence bytes there are up to the last that is not zero.
fn bytes_used(present: &[u8; PRESENCE_BYTES]) -> usize
    ensures { UpTo present.now result }
{
    for i in (0..PRESENCE_BYTES).rev() {
        if present[i] != 0 {
            return i + 1;
        }
    }
    0
}

// How many bits of a byte there are up to its highest set one.
fn bits_used(byte: u8) -> usize
    ensures { (result ≡ 8 - count_leading_zeros 8 byte) × (byte < 256) }
{
    8 - u8::leading_zeros(byte) as usize
}

// The length of a group's value that keeps the slots up to the last present one, which is found by the leading zeros of the last
// presence byte that is not zero.
pub fn compact_group(g: ChecksumGroup) -> usize
    ensures { result ≡ presence_bytes + slot_width * up_to_present (slots_of g) }
{
    let present = g.present;
    let used = bytes_used(&present);
    if used == 0 {
        return PRESENCE_BYTES;
    }
    PRESENCE_BYTES + SLOT_BYTES * (8 * (used - 1) + bits_used(present[used - 1]))
}

// The object of the group at `at`.
pub fn group_object(s: &[u8], at: usize) -> u64
    requires { at + group_bytes ≤ length s.now }
    ensures { result ≡ (decode_group (part at group_bytes s.now)).object }
{
    words::be64(s, at)
}

// The number of the group at `at` among those of its file.
pub fn group_number(s: &[u8], at: usize) -> u64
    requires { at + group_bytes ≤ length s.now }
    ensures { result ≡ (decode_group (part at group_bytes s.now)).number }
{
    words::be64(s, at + format::key::NUMBER_AT)
}

// The 256 values of 4 bytes from `at` on.
fn read_slots(s: &[u8], at: usize) -> [u32; GROUP_UNITS]
    requires { at + slot_width * group_units ≤ length s.now }
    ensures { result ≡ values_at s.now at }
{
    let mut slots = [0u32; GROUP_UNITS];
    for i in 0..GROUP_UNITS {
        slots[i] = words::le32(s, at + SLOT_BYTES * i);
    }
    slots
}

// The checksums of the group at `at`.
pub fn decode_group(s: &[u8], at: usize) -> ChecksumGroup
    requires { at + group_bytes ≤ length s.now }
    ensures { slots_of result ≡ (decode_group (part at group_bytes s.now)).slots }
{
    let mut present = [0u8; PRESENCE_BYTES];
    words::range::copy_part(&mut present, 0, s, at + PRESENCE_AT, PRESENCE_BYTES);
    let slots = read_slots(s, at + SLOTS_AT);
    ChecksumGroup { present, slots }
}

// Whether the fixed byte of the group at `at` is right: the 4 of the key.
pub fn group_fixed(s: &[u8], at: usize) -> bool
    requires { at + group_bytes ≤ length s.now }
    ensures { result ≡ group_fixed (part at group_bytes s.now) }
{
    s[at + format::key::TAG_AT] == GROUP_TAG
}

// One where bit `k` of a byte, counted from the low bit, is clear, and zero where it is set.
fn clear_at(byte: u8, k: usize) -> u32
    requires { k < 8 }
    ensures { result ≡ 1 - byte / 2 ^ k % 2 }
{
    1 - ((byte >> k) % 2) as u32
}

// What stands in slot `n` of the group at `at` where it is not present, and zero where it is. A product, not a branch: many slots are taken at a
// time.
fn absent_value(s: &[u8], at: usize, n: usize) -> u32
    requires group_bytes_in_bounds { at + group_bytes ≤ length s.now }
    requires n_lt_group_units { n < group_units }
    ensures { eqb result 0 ≡ slot_right (part at group_bytes s.now) n }
{
    let v = words::le32(s, at + SLOTS_AT + SLOT_BYTES * n);
    v * clear_at(s[at + PRESENCE_AT + n / 8], n % 8)
}

// The slots of presence byte `b` that are not present, their values put together.
fn absent_values(s: &[u8], at: usize, b: usize) -> u32
    requires group_bytes_in_bounds { at + group_bytes ≤ length s.now }
    requires b_lt_presence_bytes { b < presence_bytes }
    ensures { eqb result 0 ≡ all (slot_right (part at group_bytes s.now)) (range (8 * b) 8) }
{
    let mut any: u32 = 0;
    for k in 0..8 {
        any = any | absent_value(s, at, 8 * b + k);
    }
    any
}

// The same; where all eight are present there is nothing to read.
fn absent_byte(s: &[u8], at: usize, b: usize) -> u32
    requires group_bytes_in_bounds { at + group_bytes ≤ length s.now }
    requires b_lt_presence_bytes { b < presence_bytes }
    ensures { eqb result 0 ≡ all (slot_right (part at group_bytes s.now)) (range (8 * b) 8) }
{
    if s[at + PRESENCE_AT + b] == 0xff {
        return 0;
    }
    absent_values(s, at, b)
}

// Whether each slot of the group at `at` that is not present is zero.
pub fn absent_zero(s: &[u8], at: usize) -> bool
    requires { at + group_bytes ≤ length s.now }
    ensures { result ≡ absent_zero (part at group_bytes s.now) }
{
    let mut any: u32 = 0;
    for b in 0..PRESENCE_BYTES {
        any = any | absent_byte(s, at, b);
    }
    any == 0
}

// The key of a group, at `at`.
pub fn group_key(s: &mut [u8], at: usize, object: u64, number: u64)
    requires { at + key_bytes ≤ length s.old }
    ensures { s.new ≡ patch s.old at (group_key object number) }
{
    format::key::put_key(s, at, object, GROUP_TAG, number);
}

// The value that is written for slot `n`: zero where it is not present.
fn slot_value(present: &[u8], slots: &[u32], n: usize) -> u32
    requires present_len { (length present.now ≡ presence_bytes) × (length slots.now ≡ group_units) }
    requires n_lt_group_units { n < group_units }
    ensures { result ≡ value_of (get_or (slots_from present.now slots.now) n none) }
{
    if bit_at(present[n / 8], n % 8) {
        slots[n]
    } else {
        0
    }
}

// The 256 slots, from `at` on.
fn put_slots(s: &mut [u8], at: usize, present: &[u8], slots: &[u32])
    requires group_units_in_bounds { at + slot_width * group_units ≤ length s.old }
    requires present_len { (length present.now ≡ presence_bytes) × (length slots.now ≡ group_units) }
    ensures { s.new ≡ patch s.old at (flat_map slot_bytes (slots_from present.now slots.now)) }
{
    for i in 0..GROUP_UNITS {
        words::put_le32(s, at + SLOT_BYTES * i, slot_value(present, slots, i));
    }
}

// A group's value, the presence bytes and the slots, from `at` on.
fn put_value(s: &mut [u8], at: usize, present: &[u8], slots: &[u32])
    requires group_units_in_bounds { at + (presence_bytes + slot_width * group_units) ≤ length s.old }
    requires present_len { (length present.now ≡ presence_bytes) × (length slots.now ≡ group_units) }
    ensures { s.new ≡ patch s.old at (value_bytes (slots_from present.now slots.now)) }
{
    words::range::copy(s, at, present);
    put_slots(s, at + PRESENCE_BYTES, present, slots);
}

// A group, at `at`.
pub fn encode_group(s: &mut [u8], at: usize, object: u64, number: u64, g: ChecksumGroup)
    requires { at + group_bytes ≤ length s.old }
    ensures { s.new ≡ patch s.old at (encode_group (group_of object number g)) }
{
    let present = g.present;
    let slots = g.slots;
    group_key(s, at, object, number);
    put_value(s, at + PRESENCE_AT, &present, &slots);
}
