// The user's demands as theorems about the definitions, and Butler's theorems in the paper's own terms, in specs/. This crate has no code.
#![tactic(auto)]
