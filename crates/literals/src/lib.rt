// Strings and regular expressions: where each ends.
#![tactic(auto)]

pub mod patterns;
pub mod strings;
