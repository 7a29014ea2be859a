// Cell lists from a reader, converted to a writer; what goes wrong is said to a third stream. What is said has no
// contract.
#![tactic(auto)]

mod parts;

pub use parts::convert_input;
