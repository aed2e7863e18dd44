//! What a command finds, builds, answers, prints and writes: the definitions that the contracts of
//! the program cite.
#![tactic(auto)]
