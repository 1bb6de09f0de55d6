// What holds of cut sheets as a whole: no function stands here.
#![tactic(auto)]
