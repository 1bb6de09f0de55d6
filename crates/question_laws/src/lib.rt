// What holds of a question as a whole: no function stands here.
#![tactic(auto)]
