// The trace, hop by hop: the next hop of a block, found on the numbers of the distances.
#![tactic(auto)]

ghost use Rattle.std.specs.Prelude.{◌≡◌, ◌&&◌, ◌+◌, ◌-◌, ◌*◌, ◌<◌, eqb, get_or};
ghost use Rattle.task.specs.Sizes.{limits, tenth};
ghost use Rattle.task.specs.Task.{Task};
ghost use Rattle.blocks.specs.Masks.{lands_in, leads_by};
ghost use Rattle.trace.specs.Hops.{may_take, next_is, hop_of, Nexts};

use arcs::fits_in;
use cutting::Blocks;
use masks::Tables;
use settling::weigh;
use task::{Block, Distances, Step};

// A hop of a trace: a step, and the block that it leads to.
#[derive(Clone, Copy)]
pub struct Hop {
    pub step: Step,
    pub block: Block,
}

// The distance that is left after a step of that cost, 0 where the step weighs more.
fn after(own: u64, cost: u16) -> u64
    ensures { result ≡ own - (cost * tenth + 1) }
{
    own.saturating_sub(weigh(cost))
}

// Whether step s can be taken in block a and weighs no more than a's distance: most steps are passed over with this one test.
fn may_take(tables: &Tables, blocks: &Blocks, dist: &Distances, a: usize, s: usize) -> bool
    requires { (a < limits.blocks) × (s < limits.steps) }
    ensures { result ≡ may_take tables.now.shape.columns tables.now.rows tables.now.costs blocks.now.sets dist.now a s }
{
    weigh(tables.costs[s]) <= dist[a] && fits_in(tables, s, blocks, a)
}

// Whether the step leads from block a to block b, and the rest of a's distance is b's. The block is asked for by its place, as the loop has it, and made of it
// only where the rest is its distance: nearly all blocks are passed over with that one test.
fn fits(
    tables: &Tables,
    blocks: &Blocks,
    dist: &Distances,
    a: Block,
    step: Step,
    b: usize,
    rest: u64,
) -> bool
    requires { (a.0 < limits.blocks) × (step.0 < limits.steps) × (b < limits.blocks) }
    ensures { result ≡ (eqb (get_or dist.now b 0) rest
        && leads_by tables.now.shape.columns tables.now.rows (lands_in tables.now.rows) blocks.now.sets step.0 a.0 b) }
{
    // Here and below casts, since std has no From for them; nothing is lost.
    dist[b] == rest && tables.leads(step, a, Block(b as u16), &blocks.sets)
}

// The lowest step and, for that step, the lowest block that keep the distance of block a.
pub fn next_hop(tables: &Tables, blocks: &Blocks, dist: &Distances, a: Block) -> Option<Hop>
    requires { a.0 < blocks.now.count }
    ensures searched { hop_of result ≡ next_is tables.now blocks.now dist.now a.0 }
    ensures right { (t : Task) → Nexts t tables.now blocks.now dist.now a result }
{
    let from = usize::from(a.0);
    let mut found = None;
    // Two loops that one label leaves: the search as the rules write it.
    'steps: for s in 0..tables.shape.steps {
        if !may_take(tables, blocks, dist, from, s) {
            continue;
        }
        let rest = after(dist[from], tables.costs[s]);
        let step = Step(s as u8);
        for b in 0..blocks.count {
            if fits(tables, blocks, dist, a, step, b, rest) {
                let block = Block(b as u16);
                found = Some(Hop { step, block });
                break 'steps;
            }
        }
    }
    found
}
