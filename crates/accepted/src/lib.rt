// Reads the two sheets of a call and compares them. specs/ states what a call may use once a sheet is read.
#![tactic(auto)]

pub mod both;
