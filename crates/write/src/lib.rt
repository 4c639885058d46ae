// The calls write and grow, past refusals 1 and 2: their own tests, and the change that they make.
#![tactic(auto)]

pub mod find;
pub mod grow;
pub mod write;

// Runs that the blocks of a unit form at most for it to keep any.
pub const MOST_RUNS: usize = 4;

// So for the archive writer, whose files are read end to end: fewer extents are worth more blocks written to it.
pub const ARCHIVE_RUNS: usize = 2;

// What a call answers: 0 and a count, or the number of its refusal and 0.
#[derive(Clone, Copy)]
pub struct Done {
    pub number: u32,
    pub count: u64,
}
