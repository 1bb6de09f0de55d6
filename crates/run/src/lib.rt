// A run: distances, trace, walk, cut, and again. No function: what each is, and that the answers are right.
#![tactic(auto)]

use task::Step;

// A row of the change sheet.
#[derive(Clone, Copy)]
pub struct Row {
    pub step: Step,
    pub tenths: u32,
    pub left: u32,
}
