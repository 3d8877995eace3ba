// Documents 01 and 02 as definitions, in specs/. This crate has no code.
#![tactic(auto)]
