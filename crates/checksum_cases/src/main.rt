// The picture checksums of stored planes (document 02, C-11).
#![tactic(auto)]

fn main(rt: HostRuntime) {
    picture_run::run_checksums(&mut rt.stdin(), &mut rt.stdout());
}
