// Derivations of a text: its elements by a choice, with steps of the grammar; and what they have in common with the prefix rule. It is theory
// alone, and the parser's contracts cite it.
#![tactic(auto)]
