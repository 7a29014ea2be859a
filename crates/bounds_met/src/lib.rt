// Nothing to run: that samples can move as far as that is shown by theorems about the definitions that the stage's
// contract cites.
#![tactic(auto)]
