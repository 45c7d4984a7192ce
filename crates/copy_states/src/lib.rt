//! What holds of a copy at each moment, over plain values: pairs of an image of the target and one of the journal.
#![tactic(auto)]
