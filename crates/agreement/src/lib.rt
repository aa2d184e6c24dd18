// Why the prefix rule takes a token as the token machine does: where the machine may stand by what the rule has seen of a level, and that each entry of the
// machine's table keeps that. It is theory alone, of classes and summaries: texts come in `derivations`.
#![tactic(auto)]
