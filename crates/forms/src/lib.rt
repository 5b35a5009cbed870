// Whether a word is in form: what decides refusals 1, 2 and 11, in the module of its number. Each is total. Where a refusal is looked for
// through a whole sheet or layout, the loop is in reader or judge, in the module of the same number.
#![tactic(auto)]

pub mod refusal_1;
pub mod refusal_11;
pub mod refusal_2;
