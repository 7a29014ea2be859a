// Pairs of planes from standard input, and for each the count of differing samples, made by the count of term 3's run.
// For a tile that count is proved to be 0; here others are printed. oracle/counts.py has the records.
#![tactic(auto)]

mod pairs;
mod turn;

fn main(rt: HostRuntime) {
    turn::run(&mut rt.stdin(), &mut rt.stdout());
}
