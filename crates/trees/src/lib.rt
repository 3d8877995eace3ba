// Theorems about trees, wirings, classes and marks, in specs/. This crate has no code.
#![tactic(auto)]
