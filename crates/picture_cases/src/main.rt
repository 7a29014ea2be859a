// The stage on stored pictures: each refusal of the ledger, each format and depth, tiles, slices and suppressed cells.
#![tactic(auto)]

fn main(rt: HostRuntime) {
    picture_run::run_stage(&mut rt.stdin(), &mut rt.stdout());
}
