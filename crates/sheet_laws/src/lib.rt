// What holds of model sheets, read and written: no function, only laws.
#![tactic(auto)]
