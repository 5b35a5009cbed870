// What decides refusals 3 to 7, 12 and 18, in the module of its number: of a word, of numbers, of a head. Each is total. Where a refusal is
// looked for through a whole sheet, the loop is in reader, in the module of the same number.
// Refusals 1, 2 and 11, of a word's form, are decided in forms. The order of 1 to 7 is reader's (order); that of the maker's own, 18, 8 and 9,
// with the tests of 8 and 9, is faults' (maker). Of 12 the test on a length is here, the rest in report; 10 is the walk's.
#![tactic(auto)]

pub mod refusal_12;
pub mod refusal_18;
pub mod refusal_3;
pub mod refusal_4;
pub mod refusal_5;
pub mod refusal_6;
pub mod refusal_7;
