// A view of a plane: lent samples with their width and height, as RefPlane of the Rust's src/mc.rs.
#![tactic(auto)]

ghost use Rattle.std.specs.Prelude.{◌≡◌, ◌*◌, ◌<◌, length};

mod samples;

pub use samples::{is_plane, plane_sample, plane_view};

// The fields are closed: other crates have only the views that `plane_view` makes.
#[derive(Clone, Copy)]
pub struct PlaneView<'a> {
    samples: &'a [u16],
    width: usize,
    height: usize,
    // where there are rows, they are all of the samples
    pub ghost whole: { 0 < height → length samples.now ≡ width * height },
}
