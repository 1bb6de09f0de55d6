// No function: what the distance of a block is, that the one worked out is the least over all paths, and estimates.
#![tactic(auto)]
