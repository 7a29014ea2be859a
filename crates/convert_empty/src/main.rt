// convert_cells on empty input, which prints nothing. A crate of its own, since `rt ci` runs a crate's program once, on
// one stdin.
#![tactic(auto)]

fn main(rt: HostRuntime) {
    // What goes wrong has been said.
    let _ = conversion_run::convert_input(
        &mut rt.stdin(),
        &mut rt.stdout(),
        &mut rt.stderr(),
        u64::MAX,
    );
}
