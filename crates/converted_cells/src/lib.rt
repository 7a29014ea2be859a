// Nothing to run: what the conversion of cell lists keeps are theorems about the definitions that the contracts of the
// stage and of the conversion cite.
#![tactic(auto)]
