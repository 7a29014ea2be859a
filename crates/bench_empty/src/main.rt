// The segment bench on empty input, which prints nothing.
#![tactic(auto)]

fn main(rt: HostRuntime) {
    bench_run::run(&mut rt.stdin(), &mut rt.stdout());
}
