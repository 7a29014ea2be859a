// Nothing to run: term 3 is a theorem about the definitions that the stage's contract cites.
#![tactic(auto)]
