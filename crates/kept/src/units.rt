// The units that a change rewrites, ascending.
ghost use Rattle.std.specs.Prelude.{◌≡◌, ℕ, ◌+◌, ◌-◌, ◌≤◌, ◌<◌, max, length, take};
ghost use Rattle.rules.specs.Lists.{range};
ghost use Rattle.rules.specs.Units as rules;
ghost use Rattle.rules.specs.Units.{write_units, grow_units};
ghost use Rattle.kept.specs.Change.{IsChange, tail_units};

use super::Change;
use format::sizes::UNIT_BYTES;

// The units from `first` up to `past`, that one not included.
fn put_units(first: u64, past: u64, units: &mut [u64]) -> usize
    requires { (first ≤ past) × (past - first ≤ length units.old) }
    ensures { (result ≡ past - first) × (take result units.new ≡ range first (past - first)) }
{
    for unit in first..past {
        units[(unit - first) as usize] = unit;
    }
    (past - first) as usize
}

impl Change {
    // The old tail unit where it is rewritten before the first touched one: the file grows, the unit is partial, and no written byte falls into it.
    fn put_tail(self, first: u64, units: &mut [u64]) -> usize
        requires { 0 < length units.old }
        ensures { (result ≤ 1) × (take result units.new ≡ tail_units self.old_size self.new_size first) }
    {
        let tail = self.old_size / UNIT_BYTES as u64;
        if self.new_size <= self.old_size {
            return 0;
        }
        if self.old_size % UNIT_BYTES as u64 == 0 {
            return 0;
        }
        if first <= tail {
            return 0;
        }
        units[0] = tail;
        1
    }

    // The units that a write rewrites: those it touches, and before them the old tail unit where its valid length changes without a written byte.
    pub fn write_units(self, units: &mut [u64]) -> usize
        requires len_nonzero { (0 < self.len) × (self.new_size ≡ max self.old_size (self.offset + self.len)) }
        requires units_len { length units.old ≡ 18 }
        ensures result_nonzero { (0 < result) × (result ≤ 18) }
        ensures units_after { (c : rules.Change) → IsChange c self.old_size self.new_size self.offset self.len → take result units.new ≡ write_units c }
    {
        let first = self.offset / UNIT_BYTES as u64;
        let past = self.end().div_ceil(UNIT_BYTES as u64);
        let n = self.put_tail(first, units);
        n + put_units(first, past, &mut units[n..])
    }

    // The units that a grow rewrites: the old tail unit, if partial.
    pub fn grow_units(self, units: &mut [u64]) -> usize
        requires { 0 < length units.old }
        ensures upper_bound { result ≤ 1 }
        ensures units_after { (c : rules.Change) (after start len : ℕ) → IsChange c self.old_size after start len → take result units.new ≡ grow_units c }
    {
        grow_units(self.old_size, units)
    }
}

// The same of a file of this size.
pub fn grow_units(old_size: u64, units: &mut [u64]) -> usize
    requires { 0 < length units.old }
    ensures upper_bound { result ≤ 1 }
    ensures units_after { (c : rules.Change) (after start len : ℕ) → IsChange c old_size after start len → take result units.new ≡ grow_units c }
{
    if old_size % UNIT_BYTES as u64 == 0 {
        return 0;
    }
    units[0] = old_size / UNIT_BYTES as u64;
    1
}
