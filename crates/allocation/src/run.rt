// The first run: the lowest free blocks side by side that are as many as wanted, in the first group from the hint on, cyclic, that has them (document 02,
// W-208). A run is sought in each group by itself, so that none crosses a group's end.
ghost use Rattle.std.specs.Prelude.{◌≡◌, ◌+◌, ◌*◌, ◌≤◌, ◌<◌, length};
ghost use Rattle.rules.specs.Lists.{range};
ghost use Rattle.rules.specs.Sizes.{unit_blocks, most_blocks};
ghost use Rattle.rules.specs.Allocation.{allocation_groups, run_in, first_run};
ghost use Rattle.runs.specs.Runs.{clear};
ghost use Rattle.allocation.specs.Search.{held, Room, OnMap, Says};

use super::{Search, Taken, group_at, group_end, groups_of};
use format::sizes::GROUP_BLOCKS;

impl<'a> Search<'a> {
    // The first block of a group's lowest run.
    fn run_in(&self, g: u64) -> Option<u64>
        requires group { g < allocation_groups self.now.blocks }
        requires want_nonzero { 0 < self.now.want }
        ensures { Says result (run_in self.now.blocks (clear self.now.map.now) self.now.want g) }
    {
        let start = g * GROUP_BLOCKS;
        let end = group_end(start, self.blocks);
        let first = runs::lowest_run(self.map, start as usize, end as usize, self.want);
        first.map(|b| b as u64)
    }

    // The first block of the first run.
    // Kept: a loop and not `find_map`, which was tried: the library has no lemma that says what it finds over a range.
    pub fn first_run(&self) -> Option<u64>
        requires { 0 < self.now.want }
        ensures { Says result (first_run self.now.blocks (clear self.now.map.now) self.now.want self.now.hint) }
    {
        let groups = groups_of(self.blocks);
        for i in 0..groups {
            if let Some(b) = self.run_in(group_at(self.hint, i, groups)) {
                return Some(b);
            }
        }
        None
    }
}

// The `n` blocks from `b` on.
pub fn from(b: u64, n: usize) -> Taken
    requires { (b + n ≤ most_blocks) × (n ≤ unit_blocks) }
    ensures { (held result ≡ range b n) × Room n result }
{
    let mut t = Taken::new();
    for x in b..b + n as u64 {
        t.push(x);
    }
    t
}
