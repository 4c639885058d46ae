// What the books say of a stretch of a file: where its blocks are on the device, and the checksums of its units.
//
// An entry of an answer is 0 where there is none, and one more than the block or the checksum elsewhere.
#![tactic(auto)]

pub mod extents;
pub mod slots;
