// The thresholds of a segment (ITU-T H.265, 8.7.2.5.3 and 8.7.2.5.5). All arithmetic is unsigned: a QP arrives as its
// byte in a cell record, 64 more; a slice's offset as its byte, 6 more; the Cb or Cr offset 12 more. So an index
// below a table's first row is a truncated subtraction or, of the luma tc, a test, and no number here is ever negative.
// The depth's bounds stay clauses, and no type has them: README names `luma_beta`, `luma_tc` and `chroma_tc`, which take
// any number that meets the clauses.
#![tactic(auto)]

mod chroma;
mod luma;
mod luma_table;
mod tables;

pub use chroma::{chroma_tc, qpc};
pub use luma::{average_qp, luma_beta, luma_tc};
pub use luma_table::luma_tc_table;
