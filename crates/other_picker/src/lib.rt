// A second way to pick the pairs of a round, to show that the join law does not ask who picked them.
#![tactic(auto)]
