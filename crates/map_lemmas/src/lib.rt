//! Lemmas on maps: what a node carries, its values and the number of its scope, changes nothing of
//! what the definitions of maps say.
#![tactic(auto)]
