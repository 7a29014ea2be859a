// The stage: any picture in, a finished picture or a numbered refusal out.
#![tactic(auto)]

mod components;
mod driver;
mod plane;

pub use driver::apply_deblocking;
