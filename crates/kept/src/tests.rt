// What a change does to one unit: its valid length before and after, whether written bytes fall into it, whether its old bytes are read, and
// where the caller's part of it stands.
ghost use Rattle.std.specs.Prelude.{◌≡◌, true, ℕ, ◌+◌, ◌*◌, ◌≤◌, min, max};
ghost use Rattle.rules.specs.Lists.{begun};
ghost use Rattle.rules.specs.Sizes.{block_bytes, unit_bytes, unit_blocks, most_size};
ghost use Rattle.rules.specs.Units as rules;
ghost use Rattle.rules.specs.Units.{valid_length, touches, reads_old};
ghost use Rattle.kept.specs.Change.{IsChange, written_between, covers_new};
ghost use Rattle.kept.specs.Placed.{Placed};

use super::Change;
use format::sizes::{BLOCK_BYTES, UNIT_BYTES};

// The caller's part of a unit: `count` of the caller's bytes, from `from` on, stand from `at` on in the unit.
#[derive(Clone, Copy)]
pub struct Part {
    pub from: usize,
    pub count: usize,
    pub at: usize,
}

// The valid length of a unit in a file of this size.
#[tactic(auto, unfolding(rules::specs::Units::valid_length))]
pub fn valid_length(size: u64, unit: u64) -> usize
    requires { unit * unit_bytes ≤ most_size }
    ensures { (result ≡ valid_length size unit) × (result ≤ unit_bytes) }
{
    size.saturating_sub(unit * UNIT_BYTES as u64)
        .min(UNIT_BYTES as u64) as usize
}

// How many blocks a unit has in a file of this size.
pub fn unit_blocks(size: u64, unit: u64) -> usize
    requires { unit * unit_bytes ≤ most_size }
    ensures { (result ≡ begun (valid_length «size» unit) block_bytes) × (result ≤ unit_blocks) }
{
    valid_length(size, unit).div_ceil(BLOCK_BYTES)
}

// Whether one of the `len` bytes from `offset` on falls between two places of the file, the second not included.
#[tactic(auto, unfolding(crate::specs::Change::written_between))]
pub fn written_in(offset: u64, len: usize, from: u64, to: u64) -> bool
    requires { offset + len ≤ most_size }
    ensures { result ≡ written_between offset (offset + len) from to }
{
    offset.max(from) < (offset + len as u64).min(to)
}

// Whether a written byte falls into the unit.
pub fn touches(offset: u64, len: usize, unit: u64) -> bool
    requires { (offset + len ≤ most_size) × (unit * unit_bytes ≤ most_size) }
    ensures value { result ≡ written_between offset (offset + len) (unit * unit_bytes) (unit * unit_bytes + unit_bytes) }
    ensures value_2 { (c : rules.Change) (before after : ℕ) → IsChange c before after offset len → result ≡ touches c unit }
{
    let start = unit * UNIT_BYTES as u64;
    written_in(offset, len, start, start + UNIT_BYTES as u64)
}

// Whether the unit's old bytes are read: there are some, and the write does not cover all of them. A write over all of them needs no read, so
// that damaged contents can be overwritten.
pub fn reads_old(old_size: u64, offset: u64, len: usize, unit: u64) -> bool
    requires { (offset + len ≤ most_size) × (unit * unit_bytes ≤ most_size) }
    ensures { (c : rules.Change) (after : ℕ) → IsChange c old_size after offset len → result ≡ reads_old c unit }
{
    let start = unit * UNIT_BYTES as u64;
    let old_valid = valid_length(old_size, unit) as u64;
    old_valid != 0 && (start < offset || offset + (len as u64) < start + old_valid)
}

// Whether the written bytes are all of the unit's new bytes: nothing of it is then read or put together.
pub fn covers_new(offset: u64, len: usize, new_size: u64, unit: u64) -> bool
    requires { (offset + len ≤ most_size) × (unit * unit_bytes ≤ most_size) }
    ensures { (c : rules.Change) (before : ℕ) → IsChange c before new_size offset len → result ≡ covers_new c unit }
{
    let start = unit * UNIT_BYTES as u64;
    offset <= start && start + valid_length(new_size, unit) as u64 <= offset + len as u64
}

// Where the written bytes of the unit begin in the file.
pub fn written_from(offset: u64, unit: u64) -> u64
    requires { unit * unit_bytes ≤ most_size }
    ensures { result ≡ max offset (unit * unit_bytes) }
{
    offset.max(unit * UNIT_BYTES as u64)
}

// Where they end, the place itself not included.
pub fn written_to(offset: u64, len: usize, unit: u64) -> u64
    requires { (offset + len ≤ most_size) × (unit * unit_bytes ≤ most_size) }
    ensures { result ≡ min (offset + len) (unit * unit_bytes + unit_bytes) }
{
    (offset + len as u64).min(unit * UNIT_BYTES as u64 + UNIT_BYTES as u64)
}

// The caller's part of a unit that the write touches.
pub fn written_part(offset: u64, len: usize, unit: u64) -> Part
    requires len_bound { (offset + len ≤ most_size) × (unit * unit_bytes ≤ most_size) }
    requires unit_bytes_value { written_between offset (offset + len) (unit * unit_bytes) (unit * unit_bytes + unit_bytes) ≡ true }
    ensures placed { (c : rules.Change) (before after : ℕ) → IsChange c before after offset len → Placed c unit result }
    ensures count_bound { (result.from + result.count ≤ len) × (result.at + result.count ≤ unit_bytes) }
{
    let from = written_from(offset, unit);
    let to = written_to(offset, len, unit);
    Part {
        from: (from - offset) as usize,
        count: (to - from) as usize,
        at: (from - unit * UNIT_BYTES as u64) as usize,
    }
}

impl Change {
    // Whether a written byte falls between two places of the file, the second not included.
    pub fn written_in(self, from: u64, to: u64) -> bool
        ensures { result ≡ written_between self.offset (self.offset + self.len) from to }
    {
        written_in(self.offset, self.len, from, to)
    }

    // Whether a written byte falls into the unit.
    pub fn touches(self, unit: u64) -> bool
        requires { unit * unit_bytes ≤ most_size }
        ensures value { result ≡ written_between self.offset (self.offset + self.len) (unit * unit_bytes) (unit * unit_bytes + unit_bytes) }
        ensures value_2 { (c : rules.Change) (before after : ℕ) → IsChange c before after self.offset self.len → result ≡ touches c unit }
    {
        touches(self.offset, self.len, unit)
    }

    // Whether the unit's old bytes are read.
    pub fn reads_old(self, unit: u64) -> bool
        requires { unit * unit_bytes ≤ most_size }
        ensures { (c : rules.Change) (after : ℕ) → IsChange c self.old_size after self.offset self.len → result ≡ reads_old c unit }
    {
        reads_old(self.old_size, self.offset, self.len, unit)
    }

    // Whether the written bytes are all of the unit's new bytes: nothing of it is then read or put together.
    pub fn covers_new(self, unit: u64) -> bool
        requires { unit * unit_bytes ≤ most_size }
        ensures { (c : rules.Change) (before : ℕ) → IsChange c before self.new_size self.offset self.len → result ≡ covers_new c unit }
    {
        covers_new(self.offset, self.len, self.new_size, unit)
    }

    // The caller's part of a unit that the write touches.
    pub fn written_part(self, unit: u64) -> Part
        requires len_bound { unit * unit_bytes ≤ most_size }
        requires unit_bytes_value { written_between self.offset (self.offset + self.len) (unit * unit_bytes) (unit * unit_bytes + unit_bytes) ≡ true }
        ensures placed { (c : rules.Change) (before after : ℕ) → IsChange c before after self.offset self.len → Placed c unit result }
        ensures count_bound { (result.from + result.count ≤ self.len) × (result.at + result.count ≤ unit_bytes) }
    {
        written_part(self.offset, self.len, unit)
    }
}
