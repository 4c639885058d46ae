// The units of a change, what is kept of each, and the runs that its blocks form.
//
// `units` has the units that a change rewrites, `tests` what it does to one of them, `kept` the blocks that stay where they are, `blocks` the
// others: those wanted, those given for them, and those no longer mapped.
#![tactic(auto)]

ghost use Rattle.std.specs.Prelude.{◌≡◌, ◌+◌, MatchOption};
ghost use Rattle.kept.specs.Change.{ChangeFits};

pub mod blocks;
pub mod kept;
pub mod tests;
pub mod units;

// A change to a file, without its bytes: the sizes before and after, and where the written bytes stand.
#[derive(Clone, Copy)]
pub struct Change {
    pub old_size: u64,
    pub new_size: u64,
    pub offset: u64,
    pub len: usize,
    pub ghost fits: { ChangeFits old_size new_size offset len },
}

impl Change {
    // Where the written bytes end in the file, the place itself not included.
    fn end(self) -> u64
        ensures { result ≡ self.offset + self.len }
    {
        self.offset + self.len as u64
    }
}

// The block that an entry stands for.
fn block_of(entry: u32) -> Option<u32>
    ensures { MatchOption result (entry ≡ 0) (λ block. block + 1 ≡ entry) }
{
    entry.checked_sub(1)
}
