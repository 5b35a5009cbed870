// A whole layout's rules and totals, on a sheet's decoded numbers and the ties' words. Its functions are internal to those that have
// refused first: each is given sites that have a number for each tie, low enough that lengths fit.
#![tactic(auto)]

mod every_pair;
mod flaws;
pub mod labels;
pub mod least_broken;
mod pairs;
pub mod rule;
mod rule_2;
pub mod rule_6;
pub mod sites;
pub mod ties;
