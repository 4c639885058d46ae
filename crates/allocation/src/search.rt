// What a unit asks of a map: so many free blocks of a device, sought from a group on. The blocks are those of the first run that is long enough, and
// where no group has one those that the search finds first.
ghost use Rattle.std.specs.Prelude.{◌≤◌};
ghost use Rattle.rules.specs.Sizes.{unit_blocks};
ghost use Rattle.allocation.specs.Search.{OnMap};

use super::{Cursors, Taken, group_at, group_end, groups_of, run, start_at, take_run};
use format::sizes::GROUP_BLOCKS;

// The map, in which a free and untaken block is a clear bit; how many blocks it is of; the hint; and how many are wanted.
#[derive(Clone, Copy)]
pub struct Search<'a> {
    pub map: &'a [u8],
    pub blocks: u64,
    pub hint: u64,
    pub want: usize,
    ghost on_map: { OnMap blocks map.now },
    ghost of_unit: { want ≤ unit_blocks },
}

impl<'a> Search<'a> {
    ghost use Rattle.std.specs.Prelude.{◌<◌, []};
    ghost use Rattle.rules.specs.Allocation.{allocation_groups};
    ghost use Rattle.allocation.specs.Search.{held, Room, Collected, Chosen, group_bits, bits_from, found_bits, chosen_bits};

    // The clear bits of a group, from past the highest block taken in it, then around.
    fn take_group(&self, g: u64, past: u64, t: &mut Taken)
        requires group { g < allocation_groups self.now.blocks }
        requires room { Room self.now.want t.old }
        ensures { Collected self.now.want (held t.old) (group_bits self.now.map.now self.now.blocks past g) t.new }
    {
        let start = g * GROUP_BLOCKS;
        let end = group_end(start, self.blocks);
        let from = start_at(start, end, past);
        take_run(self.map, from, end, self.want, t);
        take_run(self.map, start, from, self.want, t);
    }

    // The clear bits of the groups from the hint on, cyclic, until there are as many as wanted.
    fn take_groups(&self, cursors: Cursors) -> Taken
        ensures { Collected self.now.want [] (bits_from self.now.map.now self.now.blocks self.now.hint cursors.past 0) result }
    {
        let past = cursors.past;
        let groups = groups_of(self.blocks);
        let mut t = Taken::new();
        for i in 0..groups {
            let g = group_at(self.hint, i, groups);
            self.take_group(g, past[g as usize], &mut t);
        }
        t
    }

    // The blocks that the search finds first, ascending.
    pub fn found_first(&self, cursors: Cursors) -> Taken
        ensures { Chosen self.now.want self.now.blocks (found_bits self.now.map.now self.now.blocks self.now.hint cursors.past self.now.want) result }
    {
        self.take_groups(cursors).sorted()
    }

    // The first blocks of the first run, and where there is none the blocks that the search finds first.
    pub fn choose(&self, cursors: Cursors) -> Taken
        ensures { Chosen self.now.want self.now.blocks (chosen_bits self.now.map.now self.now.blocks self.now.hint cursors.past self.now.want) result }
    {
        if self.want == 0 {
            return Taken::new();
        }
        match self.first_run() {
            Some(b) => run::from(b, self.want),
            None => self.found_first(cursors),
        }
    }
}
