// The segment bench. Its stdin here is case S1 of the scope document as one record. Each run of it that is stored is a
// crate of its own, since `rt ci` runs a crate's program once, on one stdin.
#![tactic(auto)]

fn main(rt: HostRuntime) {
    bench_run::run(&mut rt.stdin(), &mut rt.stdout());
}
