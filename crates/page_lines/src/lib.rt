// The lines of a page, put into a lent area from their numbers. Document 02, request (d).
#![tactic(auto)]

mod columns;
pub mod lines;
