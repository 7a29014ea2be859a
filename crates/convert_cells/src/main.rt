// Document 02's C-14: a stored cell list from standard input to standard output, of any length, in which a strength
// without an edge is 0.
#![tactic(auto)]

fn main(rt: HostRuntime) {
    // What goes wrong has been said.
    let _ = conversion_run::convert_input(
        &mut rt.stdin(),
        &mut rt.stdout(),
        &mut rt.stderr(),
        u64::MAX,
    );
}
