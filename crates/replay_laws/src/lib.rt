// What holds of a replay as a whole: no function stands here.
#![tactic(auto)]
