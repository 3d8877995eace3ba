// Theorems about sheets and their readers, in specs/. This crate has no code.
#![tactic(auto)]
