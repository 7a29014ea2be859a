// The segment bench on a list of records: each refusal, each table row, the ends of each decision, and a short last
// record.
#![tactic(auto)]

fn main(rt: HostRuntime) {
    bench_run::run(&mut rt.stdin(), &mut rt.stdout());
}
