// A signed step, held 65536 more, and a sample moved by it. Each limit is one choice of two numbers, which takes no
// jump, so that four lines side by side can be filtered as one.
ghost use Rattle.std.specs.Prelude.{◌≡◌, ◌≤◌};
ghost use Rattle.lines.specs.Code.{clip_delta_n, moved_n};

// Clip3(-t, t, d)
pub(crate) fn clip_delta(t: u16, d: u32) -> u32
    ensures { result ≡ clip_delta_n t d }
{
    let w = t as u32;
    d.min(65536 + w).max(65536 - w)
}

// x + d, clipped to the samples
pub(crate) fn moved(largest: u16, x: u16, d: u32) -> u16
    requires { d ≤ 131072 }
    ensures { result ≡ moved_n largest x d }
{
    ((x as u32) + d).saturating_sub(65536).min(largest as u32) as u16
}
