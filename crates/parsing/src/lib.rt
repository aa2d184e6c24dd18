// What parsing a text answers and leaves, and what that comes to over derivations. It is theory alone, and the contract of
// `parser::parse` cites it.
#![tactic(auto)]
