// Laws of the list functions and of the calls' definitions, in specs/. This crate has no code.
#![tactic(auto)]
