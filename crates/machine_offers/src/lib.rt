//! The offers of channels and the Wakes that wait until they are taken: the lemmas on what is done to objects and
//! items.
#![tactic(auto)]
