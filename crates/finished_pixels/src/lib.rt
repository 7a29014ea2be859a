// Nothing to run: that the finished planes have their pixels is said by a theorem about the definitions that the
// contracts of the stage and of a pixel cite.
#![tactic(auto)]
