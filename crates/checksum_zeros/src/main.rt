// The picture checksums of a built-in 8 by 8 picture of zeros, depth 8, 4:2:0, a line for each plane (document 02,
// C-11).
#![tactic(auto)]

use checksum::{Checksums, picture_checksums};
use picture::{Planes, Settings};
use picture_text::put_sum;
use std::io::Write;

// A picture that was refused would have no line. Each of the three is tried, whatever became of the one before.
fn put_sums<W: Write>(output: &mut W) {
    let settings = Settings {
        width: 8,
        height: 8,
        chroma_format: 1,
        luma_depth: 8,
        chroma_depth: 8,
        log2_ctb: 4,
        cb_qp_offset: 0,
        cr_qp_offset: 0,
        pcm_loop_filter_disabled: false,
    };
    let luma = [0u16; 64];
    let chroma = [0u16; 16];
    let planes = Planes {
        y: &luma,
        cb: &chroma,
        cr: &chroma,
    };
    if let Ok(Checksums::Three { y, cb, cr }) = picture_checksums(settings, &planes) {
        for sum in [y, cb, cr] {
            let _ = put_sum(output, sum);
        }
    }
}

fn main(rt: HostRuntime) {
    put_sums(&mut rt.stdout());
}
