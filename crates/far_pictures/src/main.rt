// How far the stage moves the samples of stored pictures, most of which meet the bounds of document 02's C-23: 96 in
// luma and 48 in chroma, times 2^(depth - 8).
#![tactic(auto)]

fn main(rt: HostRuntime) {
    picture_run::run_moves(&mut rt.stdin(), &mut rt.stdout());
}
