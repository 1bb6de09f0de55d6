// The walk of the real states along the trace: a plan, or a flaw and its cut.
#![tactic(auto)]

ghost use Rattle.std.specs.Prelude.{◌≡◌, List, ◌%◌, ◌<◌, get_or};
ghost use Rattle.task.specs.Sizes.{limits, tenth};
ghost use Rattle.task.specs.Task.{Task, start};
ghost use Rattle.blocks.specs.declared.Cut.{Cut};
ghost use Rattle.blocks.specs.Masks.{lands_in, goals_in};
ghost use Rattle.distances.specs.Distances.{Distance};
ghost use Rattle.walk.specs.Walking.{arrive_by, turn_in, stands_after, follow_from, Says, seen, Known, Begins, walked};

use blocks::Cut;
use cutting::Blocks;
use masks::Tables;
use standing::Standing;
use task::{Block, Distances, Model, Path};
use trace::{Hop, next_hop};

// One hop of the trace from block a, and of the state along it: none where the trace ended before it, or the cut of a flaw.
fn hop(
    tables: &Tables,
    blocks: &Blocks,
    dist: &Distances,
    a: Block,
    here: &mut Standing,
) -> Result<Option<Hop>, Cut>
    requires { a.0 < blocks.now.count }
    ensures turned { result ≡ turn_in tables.now blocks.now dist.now a here.old.sets }
    ensures stands { here.new.sets ≡ stands_after tables.now.shape.columns (lands_in tables.now.rows) here.old.sets result }
{
    let Some(next) = next_hop(tables, blocks, dist, a) else {
        return Ok(None);
    };
    if !here.can_take(tables, next.step) {
        return Err(here.row_cut(tables, blocks, a, usize::from(next.step.0)));
    }
    if !here.lands_in(tables, blocks, next.step, next.block) {
        return Err(here.back_cut(tables, blocks, a, next.step, next.block));
    }
    here.take(tables, next.step);
    Ok(Some(next))
}

// What the end of the trace is: a goal state makes the hops a plan, any other is a goal flaw.
fn arrive(
    tables: &Tables,
    blocks: &Blocks,
    hops: usize,
    a: Block,
    here: &Standing,
) -> Result<usize, Cut>
    requires { a.0 < limits.blocks }
    ensures { result ≡ arrive_by tables.now.shape.columns (goals_in tables.now.rows) blocks.now.sets hops a here.now.sets }
{
    if here.is_goal(tables) {
        return Ok(hops);
    }
    Err(here.row_cut(tables, blocks, a, Model::GOAL))
}

// Walks from the start, in block `from`, along the block's trace: a plan of so many steps of the path, or the cut of a flaw. The path gets the steps that were
// taken; places past them stay as they are.
pub fn follow(
    tables: &Tables,
    blocks: &Blocks,
    dist: &Distances,
    from: Block,
    path: &mut Path,
) -> Result<usize, Cut>
    requires made { from.0 < blocks.now.count }
    requires short { get_or dist.now from.0 0 % tenth < limits.blocks }
    ensures followed { Says result path.new (follow_from tables.now blocks.now dist.now from path.old) }
    ensures known { Known tables.now.shape.steps result path.new }
    ensures right { (t : Task) (cs : List Cut) (d : Distance) → Begins t cs d tables.now blocks.now from dist.now
        → seen d.cost result path.new ≡ walked t tables.now.shape.columns blocks.now.count blocks.now.sets (start t) from d }
{
    let mut here = Standing::at_start(tables);
    // A cast, since std has no From for it; nothing is lost.
    let hops = (dist[usize::from(from.0)] % Model::TENTH) as usize;
    let mut a = from;
    for i in 0..hops {
        let Some(next) = hop(tables, blocks, dist, a, &mut here)? else {
            return arrive(tables, blocks, i, a, &here);
        };
        path[i] = next.step;
        a = next.block;
    }
    arrive(tables, blocks, hops, a, &here)
}
