// Causes 1 to 5 of the ledger: the sizes and the settings.
ghost use Rattle.std.specs.Prelude.{◌≡◌, ◌++◌};
ghost use Rattle.picture.specs.Causes.{bad_size, bad_format, bad_depth, bad_depths, bad_ctb, bad_offset};
ghost use Rattle.picture.specs.Given.{settings_of};
ghost use Rattle.picture.specs.Ledger.{any_of};

use picture::Settings;

// A width or a height that is not allowed.
fn bad_size(n: u32) -> bool
    ensures { result ≡ any_of (bad_size n) }
{
    (n % 8 != 0) | !(8..=8192).contains(&n)
}

// 1. The width or the height is not allowed.
pub fn bad_sizes(settings: Settings) -> bool
    ensures { result ≡ any_of (bad_size settings.width ++ bad_size settings.height) }
{
    bad_size(settings.width) | bad_size(settings.height)
}

// 2. The chroma format is above 3.
pub fn bad_format(settings: Settings) -> bool
    ensures { result ≡ any_of (bad_format (settings_of settings)) }
{
    3 < settings.chroma_format
}

// A depth outside 8 to 16.
pub fn bad_depth(depth: u32) -> bool
    ensures { result ≡ any_of (bad_depth depth) }
{
    !(8..=16).contains(&depth)
}

// 3. A depth is outside 8 to 16, in every format.
pub fn bad_depths(settings: Settings) -> bool
    ensures { result ≡ any_of (bad_depths (settings_of settings)) }
{
    bad_depth(settings.luma_depth) | bad_depth(settings.chroma_depth)
}

// 4. The log2 of the CTB size is outside 4 to 6.
pub fn bad_ctb(settings: Settings) -> bool
    ensures { result ≡ any_of (bad_ctb (settings_of settings)) }
{
    !(4..=6).contains(&settings.log2_ctb)
}

// A chroma offset outside −12 to 12.
fn bad_offset(offset: i32) -> bool
    ensures { result ≡ any_of (bad_offset offset) }
{
    !(-12..=12).contains(&offset)
}

// 5. A chroma offset is outside −12 to 12, in every format.
pub fn bad_offsets(settings: Settings) -> bool
    ensures { result ≡ any_of (bad_offset settings.cb_qp_offset ++ bad_offset settings.cr_qp_offset) }
{
    bad_offset(settings.cb_qp_offset) | bad_offset(settings.cr_qp_offset)
}
