// What C passes of the settings with planes alone.
ghost use Rattle.std.specs.Prelude.{◌≡◌};
ghost use Rattle.tinladle.specs.Passed.{passed_planes};

use picture::Settings;

// As the struct that holds them. The others play no part.
pub(crate) fn planes_settings(
    width: u32,
    height: u32,
    chroma_format: u32,
    luma_depth: u32,
    chroma_depth: u32,
) -> Settings
    ensures { result ≡ passed_planes width height chroma_format luma_depth chroma_depth }
{
    Settings {
        width,
        height,
        chroma_format,
        luma_depth,
        chroma_depth,
        log2_ctb: 0,
        cb_qp_offset: 0,
        cr_qp_offset: 0,
        pcm_loop_filter_disabled: false,
    }
}
