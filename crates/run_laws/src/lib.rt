// What holds of a run as a whole: no function stands here.
#![tactic(auto)]
