// Writing a model sheet from lent tables of plain numbers.
#![tactic(auto)]

mod put;
pub mod write;
