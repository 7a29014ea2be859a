// The luma filter on a segment's window, in place, in a lent list of samples. `base` is where p3 of line 0 stands. At a
// vertical edge the samples across it are neighbours and its lines lie `along` apart; at a horizontal edge it is the
// other way round. The two directions share the decision and the filter of four lines side by side; one body for both
// would be no plainer, since a window at a vertical edge is turned first.
#![tactic(auto)]

mod luma;
mod rows;
mod turned;

pub use luma::{horizontal_luma, vertical_luma};
