// Which of a unit's blocks stay where they are.
ghost use Rattle.std.specs.Prelude.{◌≡◌, ◌++◌, ◌+◌, ◌-◌, ◌*◌, ◌≤◌, ◌<◌, min, length, take, replicate};
ghost use Rattle.rules.specs.Sizes.{unit_bytes, unit_blocks, most_size};
ghost use Rattle.rules.specs.Units as rules;
ghost use Rattle.rules.specs.Units.{valid_length};
ghost use Rattle.rules.specs.Kept.{continues, runs};
ghost use Rattle.mapping.specs.Entries.{entry_of, entries};
ghost use Rattle.kept.specs.Change.{IsChange, intact_at};
ghost use Rattle.kept.specs.Retained.{candidate_entries, limited_entries, FromOld, Retained};

use super::tests::{unit_blocks, valid_length};
use super::{Change, block_of};
use format::sizes::{BLOCK_BYTES, UNIT_BYTES};

// Whether a block continues the run of the one before it: two kept ones that adjoin on the device, and two not kept.
pub fn continues(a: u32, b: u32) -> bool
    ensures { result ≡ continues (entry_of a) (entry_of b) }
{
    match block_of(a) {
        None => block_of(b).is_none(),
        Some(block) => block_of(b) == Some(block + 1),
    }
}

// The runs that the first `n` blocks form. It calls itself on one block fewer, as document 01 names the form.
pub fn runs(kept: &[u32], n: usize) -> usize
    requires { n ≤ length kept.now }
    ensures { (result ≡ runs (entries (take n kept.now))) × (result ≤ n) }
{
    if n < 2 {
        return n;
    }
    let before = runs(kept, n - 1);
    if continues(kept[n - 2], kept[n - 1]) {
        return before;
    }
    before + 1
}

// The entries of the intact blocks among the first `n`, none behind them, and none at all where they would form more runs than the limit.
fn within_limit(limit: usize, n: usize, kept: &mut [u32])
    requires { (n ≤ unit_blocks) × (length kept.old ≡ unit_blocks) }
    ensures { kept.new ≡ limited_entries limit n kept.old }
{
    if limit < runs(kept, n) {
        kept.fill(0);
    } else {
        kept[n..].fill(0);
    }
}

impl Change {
    // The bytes of a unit that are valid before and after the change: a block that spans either valid length changes with the length itself.
    fn settled_length(self, unit: u64) -> usize
        requires { unit * unit_bytes ≤ most_size }
        ensures { (result ≡ min (valid_length self.old_size unit) (valid_length self.new_size unit)) × (result ≤ unit_bytes) }
    {
        valid_length(self.old_size, unit).min(valid_length(self.new_size, unit))
    }

    // Whether block `i` of the unit at `start`, of which so many bytes are valid before and after, is intact.
    fn is_intact(self, settled: usize, start: u64, i: usize) -> bool
        requires { (settled ≤ unit_bytes) × (i < unit_blocks) × (start ≤ most_size) }
        ensures { result ≡ intact_at settled self.offset (self.offset + self.len) start i }
    {
        let at = i * BLOCK_BYTES;
        let from = start + at as u64;
        at + BLOCK_BYTES <= settled && !self.written_in(from, from + BLOCK_BYTES as u64)
    }

    // The entries of the first blocks that are intact.
    fn candidates(self, settled: usize, start: u64, old: &[u32], kept: &mut [u32])
        requires settled_le_unit_bytes { (settled ≤ unit_bytes) × (length kept.old ≤ unit_blocks) × (start ≤ most_size) }
        requires n_in_bounds { length kept.old ≤ length old.now }
        ensures { kept.new ≡ candidate_entries settled self.offset (self.offset + self.len) start (length kept.old) old.now }
    {
        for (i, entry) in kept.iter_mut().enumerate() {
            *entry = if self.is_intact(settled, start, i) {
                old[i]
            } else {
                0
            };
        }
    }

    // The blocks of a unit after the change, the first `r` entries of `kept`: a block of the old unit stays where it is if the old unit was checked,
    // the block lies wholly inside both valid lengths, no written byte falls in it, and the unit's blocks form no more runs than the limit.
    pub fn retained_blocks(
        self,
        limit: usize,
        unit: u64,
        verified: bool,
        old: &[u32],
        kept: &mut [u32],
    ) -> usize
        requires unit_bytes_bound { unit * unit_bytes ≤ self.new_size }
        requires len { (length old.now ≡ unit_blocks) × (length kept.old ≡ unit_blocks) }
        ensures from_old { FromOld old.now kept.new result }
        ensures retained { (c : rules.Change) → IsChange c self.old_size self.new_size self.offset self.len → Retained limit c unit verified old.now kept.new result }
    {
        let count = unit_blocks(self.new_size, unit);
        if !verified {
            kept.fill(0);
            return count;
        }
        let settled = self.settled_length(unit);
        self.candidates(settled, unit * UNIT_BYTES as u64, old, &mut kept[..count]);
        within_limit(limit, count, kept);
        count
    }
}
