// What reading answers and leaves, and its theorems: there is no code here. `reader` has the call.
#![tactic(auto)]
