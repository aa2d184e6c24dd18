#![tactic(auto)]

// The readings of document 01 that are marked (M): one table, and one theorem over it.
