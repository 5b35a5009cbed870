#![tactic(auto)]

pub mod examples;
pub mod optimality;
