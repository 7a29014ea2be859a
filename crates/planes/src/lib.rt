// Definitions and laws of planes that are filtered in place, part by part. The crate has no code: the passes and the
// restoration above cite it.
#![tactic(auto)]
