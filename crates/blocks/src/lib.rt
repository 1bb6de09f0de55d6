// Blocks, and the cuts that part them: what they are. No function stands here; the code on sets and on arrays of blocks is `masks` and `cutting`.
#![tactic(auto)]

use task::{Block, Column};

// A cut: the wanted positions of one column of a block go to a new block. Position p has weight 2^p.
#[derive(Clone, Copy)]
pub struct Cut {
    pub block: Block,
    pub column: Column,
    pub wanted: u32,
}
