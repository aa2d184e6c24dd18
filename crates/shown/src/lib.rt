#![tactic(auto)]

// What tree records show of a derivation: its regular expressions, words, braces, increments and answers. It is theory alone.
