// The token machine, which takes tokens one at a time and builds the syntax tree as it goes, and the syntax tree itself. It is theory alone but
// for the numbers of the classes, and the parser's contracts cite it.
#![tactic(auto)]

pub mod tokens;
