// What the customer asks, as theorems: no function stands here.
#![tactic(auto)]
