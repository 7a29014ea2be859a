// Nothing to run: that the finished planes have their checksums is said by a theorem about the definitions that the
// contracts of the stage and of the checksum cite.
#![tactic(auto)]
