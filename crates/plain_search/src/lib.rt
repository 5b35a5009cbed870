// The best layout of a small sheet by trying all of them, and what a call of the layout maker should answer and leave by it.
// Written from the rules of documents 01 and 02 alone: it shares no code with the layout maker or the judge.
#![tactic(auto)]

pub mod calls;
pub mod met;
pub mod rules;
pub mod search;
pub mod small_sheet;
