// The checksum groups, the maps, the card and the head that a change leaves.
//
// Each function changes one buffer of the store, and what it leaves there is what the rules' `finished` says of it.
#![tactic(auto)]

pub mod card;
pub mod groups;
pub mod head;
pub mod maps;
