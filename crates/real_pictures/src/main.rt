// The stage on twelve pictures of a real encoder and decoder: oracle/README.md says where they come from.
#![tactic(auto)]

fn main(rt: HostRuntime) {
    picture_run::run_stage(&mut rt.stdin(), &mut rt.stdout());
}
