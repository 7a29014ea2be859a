// The stored record of a picture: its numbers, its head and its lists. oracle/README.md has the layout.
#![tactic(auto)]

mod fronts;
mod head;
mod numbers;
mod reading;
mod records;
mod stops;

pub use fronts::front;
pub use head::{CELL_BYTES, SAMPLES, SLICE_BYTES, STARTS, all_fit, is_marked, length_at, settings};
pub use numbers::word;
pub use reading::{read_bytes, read_numbers};
pub use records::{each_record, read_head};
pub use stops::Stop;
