// The grammar over tokens: derivations, and that the token machine takes what has one and nothing else. It is theory alone.
#![tactic(auto)]
