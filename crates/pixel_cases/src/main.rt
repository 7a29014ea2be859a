// Pixels of stored planes as floats (document 02, C-22).
#![tactic(auto)]

fn main(rt: HostRuntime) {
    picture_run::run_pixels(&mut rt.stdin(), &mut rt.stdout());
}
