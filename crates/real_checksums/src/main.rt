// The picture checksums of real pictures, deblocked, which are those that the encoders wrote into their streams
// (document 02, C-11).
#![tactic(auto)]

fn main(rt: HostRuntime) {
    picture_run::run_finished_checksums(&mut rt.stdin(), &mut rt.stdout());
}
