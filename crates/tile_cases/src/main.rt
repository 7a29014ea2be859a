// Term 3 on stored pictures with many tiles: each tile cut out, filtered alone and compared.
#![tactic(auto)]

fn main(rt: HostRuntime) {
    picture_run::run_tiles(&mut rt.stdin(), &mut rt.stdout());
}
