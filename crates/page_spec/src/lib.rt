//! Page files, layers, the page of a stack, and the plan of a merge.
#![tactic(auto)]

mod examples;
mod laws;
