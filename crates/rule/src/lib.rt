// The prefix rule: trees, levels, and what a slash, a reserved word and a brace are by the trees before on a level. It is
// theory alone: the contracts of `summaries`, of `leaves` and of the reader cite it, and the grammar looks it up.
#![tactic(auto)]
