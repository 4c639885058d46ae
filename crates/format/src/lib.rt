// The records of a store, each a struct by value, read from and written to bytes at a record's place: `head`, `card` and `extent`. The groups, with
// the checksums of a file's units, are `checksum_group`'s. `key` has what extents and groups share, two numbers with a fixed byte between them; `sizes`
// has the numbers of document 01, `refusal` the cases in which a call refuses.
#![tactic(auto)]

pub mod card;
pub mod extent;
pub mod head;
pub mod key;
pub mod refusal;
pub mod sizes;
