// Nothing to run: how far a sample can move is said by theorems about the definitions that the stage's contract cites.
#![tactic(auto)]
