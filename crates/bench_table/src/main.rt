// The segment bench on every entry of the table of the luma tc, on negative averages, and one step past each end.
#![tactic(auto)]

fn main(rt: HostRuntime) {
    bench_run::run(&mut rt.stdin(), &mut rt.stdout());
}
