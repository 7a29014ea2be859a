// Nothing to run: that palette cells keep their samples, and are as good as lossless ones, are theorems about the
// definitions that the stage's contract cites.
#![tactic(auto)]
