// A field of w bits, most significant first, read from and written to bytes, and how it is judged.
#![tactic(auto)]

mod bits;
pub mod field;
pub mod judge;
pub mod place;
pub mod put;
pub mod refusal;
