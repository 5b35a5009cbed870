// What is refused after a sheet's own refusals, in its order and from numbers and tests alone: by the maker, of a stored sheet, and by a tool
// that writes into an area.
#![tactic(auto)]

pub mod maker;
pub mod refusal;
pub mod stored;
pub mod written;
