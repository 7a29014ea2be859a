// Where a band of rows ends: ctb_bands and horiz_bands of the Rust, one step of each.
ghost use Rattle.std.specs.Prelude.{◌≡◌, ◌+◌, ◌<◌, ◌^◌};
ghost use Rattle.filter.specs.Bands.{ctb_band_end, horizontal_band_end};

// The end of the vertical pass's band that starts at a row.
#[tactic(auto, unfolding(crate::specs::Bands::ctb_band_end))]
pub fn ctb_band_end(total: usize, height: usize, row: usize) -> usize
    requires { row + height < 2 ^ 32 }
    ensures { result ≡ ctb_band_end total height row }
{
    (row + height).min(total)
}

// The end of the horizontal pass's band that starts at a row: four rows below an edge, so that it splits no edge's
// samples.
#[tactic(auto, unfolding(crate::specs::Bands::horizontal_band_end))]
pub fn horiz_band_end(total: usize, height: usize, row: usize) -> usize
    requires { row + height < 2 ^ 32 }
    ensures { result ≡ horizontal_band_end total height row }
{
    let target = row + height;
    if target >= total {
        return total;
    }
    let m = target % 8;
    let end = if m <= 4 {
        target + 4 - m
    } else {
        target + 12 - m
    };
    end.min(total)
}
