// A change to a file: its tests, what is looked up for its plan, the plan, and what is stored where it is carried out.
#![tactic(auto)]

pub mod carry;
pub mod carry_books;
pub mod carry_data;
pub mod carry_out;
pub mod lookup;
pub mod plan;
pub mod tests;
