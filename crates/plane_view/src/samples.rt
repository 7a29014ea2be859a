// How a view of a plane is made, and what it gives. Any numbers may be passed.
ghost use Rattle.std.specs.Prelude.{◌≡◌};
ghost use Rattle.plane_view.specs.View.{is_plane, view_size, sample_in, plane_sample};

use crate::PlaneView;

// Whether there is a sample for each column of each row, and no more.
pub fn is_plane(samples: &[u16], width: usize, height: usize) -> bool
    ensures { result ≡ is_plane samples.now width height }
{
    match width.checked_mul(height) {
        Some(area) => samples.len() == area,
        None => false,
    }
}

// The view of a plane. It cannot fail, and README names it: samples that are no plane of that size have a view of 0 by
// 0, so that every place is outside; `is_plane` tells it.
pub fn plane_view<'a>(samples: &'a [u16], width: usize, height: usize) -> PlaneView<'a>
    ensures samples { result.samples ≡ samples.entry }
    ensures width { result.width ≡ (view_size samples.now width height).width }
    ensures height { result.height ≡ (view_size samples.now width height).height }
{
    if is_plane(samples, width, height) {
        PlaneView {
            samples,
            width,
            height,
        }
    } else {
        PlaneView {
            samples,
            width: 0,
            height: 0,
        }
    }
}

impl<'a> PlaneView<'a> {
    pub fn width(self) -> usize
        ensures { result ≡ self.entry.width }
    {
        self.width
    }

    pub fn height(self) -> usize
        ensures { result ≡ self.entry.height }
    {
        self.height
    }

    // The sample at column x of row y, and so that of the plane.
    pub fn sample_at(self, x: usize, y: usize) -> Option<u16>
        ensures view { result ≡ sample_in self.entry.samples.now self.entry.width self.entry.height x y }
        ensures plane { result ≡ plane_sample self.entry.samples.now self.entry.width self.entry.height x y }
    {
        if self.width <= x {
            return None;
        }
        if self.height <= y {
            return None;
        }
        Some(self.samples[y * self.width + x])
    }
}

// The sample at column x of row y of a plane, by a view of it.
pub fn plane_sample(samples: &[u16], width: usize, height: usize, x: usize, y: usize) -> Option<u16>
    ensures { result ≡ plane_sample samples.now width height x y }
{
    plane_view(samples, width, height).sample_at(x, y)
}
