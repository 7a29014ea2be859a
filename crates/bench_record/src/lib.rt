// One record of the segment bench: its bytes, its samples, and why it is refused.
#![tactic(auto)]

mod fields;
mod refusal;

pub use fields::{Head, Record};
pub use refusal::RecordRefusal;
