// A book: records of one width side by side in a lent slice, ordered and packed, with their number beside it.
//
// `find` has the searches, `order` the tests of a book, `splice` the exchange of records.
#![tactic(auto)]

pub mod find;
pub mod order;
pub mod splice;
