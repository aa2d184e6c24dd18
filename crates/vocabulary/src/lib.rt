// The vocabulary: the reserved words and the signs, one row for each. It is theory alone, and the contracts of words and signs,
// the prefix rule and the grammar look it up.
#![tactic(auto)]
