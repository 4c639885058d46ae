// Bytes copied out of the blocks of the image, and into them.
//
// The modules: `out` hands bytes of blocks out, `unit` makes the bytes that a rewritten unit gets, and `put` writes them into its new blocks.
#![tactic(auto)]

pub mod out;
pub mod put;
pub mod unit;
