// Each rule where it is decided, in the module of its number: 1, 3, 4 and 5 of a tied site beside another, 2 of a colour's labels,
// 6 of a layout's first word. The loops over all sites, and the rules' order, are judge's.
#![tactic(auto)]

pub mod rule_1;
pub mod rule_2;
pub mod rule_3;
pub mod rule_4;
pub mod rule_5;
pub mod rule_6;
