//! Words for lists that hold each item once, and when two records are the same; their laws. It has no code.
#![tactic(auto)]
