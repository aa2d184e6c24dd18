// What each token of a program marks: the record that it makes, or that it makes none. It is theory alone.
#![tactic(auto)]
