// The run: look at the blocks, make the cut of the flaw, and look again, until a plan, no plan, or a flaw with the room full.
#![tactic(auto)]

ghost use Rattle.std.specs.Prelude.{◌≡◌, List, [], ◌*◌, ◌≤◌, ◌<◌, length};
ghost use Rattle.task.specs.Sizes.{limits};
ghost use Rattle.task.specs.Task.{Task};
ghost use Rattle.blocks.specs.declared.Cut.{Cut};
ghost use Rattle.blocks.specs.Blocks.{blocks_of};
ghost use Rattle.masks.specs.Tables.{Tabled};
ghost use Rattle.settling.specs.Ways.{no_way};
ghost use Rattle.run.specs.Run as run;
ghost use Rattle.run.specs.Run.{refine};
ghost use Rattle.refining.specs.Refining.{Parted, Uncut, Ready, First, look_of, seen_by, KnownSeen, end_by, start_block, RunEnds};

use blocks::Cut;
use cutting::{Blocks, put_cut};
use masks::Tables;
use settling::{NO_WAY, fill_distances};
use task::{Block, Distances, Model, Path};
use walk::follow;

// What a look at the blocks finds: no way from the start's block, a plan of so many steps, or the start's estimate and the cut of a flaw.
#[derive(Clone, Copy)]
pub enum Seen {
    Hopeless,
    Planned { steps: usize },
    Flaw { estimate: u32, cut: Cut },
}

// How a run ends: the steps of its plan, no plan, or the start's estimate, each with the number of blocks. No `Seen`, since a look does not know how many
// blocks a run ends with, and the cut of a flaw that is not made is not told.
#[derive(Clone, Copy)]
pub enum Ended {
    Plan { steps: usize, blocks: usize },
    NoPlan { blocks: usize },
    Open { estimate: u32, blocks: usize },
}

// What the walk found, with the start's distance.
fn see(far: u64, found: Result<usize, Cut>) -> Seen
    requires { far < no_way }
    ensures { result ≡ seen_by far found }
{
    match found {
        Ok(steps) => Seen::Planned { steps },
        Err(cut) => Seen::Flaw {
            // A cast, since std has no From for it; nothing is lost.
            estimate: (far / Model::TENTH) as u32,
            cut,
        },
    }
}

// One look at the blocks, with the start in block `from`: the distances, and the walk from there.
pub fn look(
    tables: &Tables,
    blocks: &Blocks,
    from: Block,
    dist: &mut Distances,
    path: &mut Path,
) -> Seen
    requires { Ready tables.now blocks.now from }
    ensures looked { (t : Task) (cs : List Cut) → Tabled t tables.now → Parted t cs tables.now.shape.columns from blocks.now
        → look_of result path.new ≡ run.look t (blocks_of t cs) }
    ensures known { KnownSeen tables.now.shape.steps result path.new }
{
    fill_distances(tables, blocks, dist);
    let far = dist[usize::from(from.0)];
    if NO_WAY <= far {
        return Seen::Hopeless;
    }
    see(far, follow(tables, blocks, dist, from, path))
}

impl Seen {
    // How a look ends a run that makes no further cut.
    fn end(self, blocks: usize) -> Ended
        ensures { result ≡ end_by self blocks }
    {
        match self {
            Seen::Hopeless => Ended::NoPlan { blocks },
            Seen::Planned { steps } => Ended::Plan { steps, blocks },
            Seen::Flaw { estimate, .. } => Ended::Open { estimate, blocks },
        }
    }
}

// The start's block after a cut that makes a new one: only a cut of its own block can take it there.
#[tactic(auto, unfolding(crate::specs::Refining::start_block, blocks::specs::Flat::past, blocks::specs::Blocks::common, blocks::specs::Blocks::is_empty))]
fn start_block(from: Block, cut: Cut, new: usize, tables: &Tables) -> Block
    requires { (cut.column.0 < limits.columns) × (new < limits.blocks) }
    ensures { result ≡ start_block from cut new tables.now.rows }
{
    let at = Model::START * Model::COLUMNS + usize::from(cut.column.0);
    if cut.block == from && tables.rows[at] & cut.wanted != 0 {
        // A cast, since std has no From for it; nothing is lost.
        Block(new as u16)
    } else {
        from
    }
}

// A run with room for so many blocks besides the first, which stands alone: looks, and makes the cut of each flaw that is met before the room is full. Its
// cuts go into the list, and the steps of its plan into the path.
pub fn refine(
    tables: &Tables,
    spare: usize,
    blocks: &mut Blocks,
    cuts: &mut [u32],
    path: &mut Path,
) -> Ended
    requires few { spare < limits.blocks }
    requires room { spare * 3 ≤ length cuts.old }
    requires first { First tables.now blocks.old }
    ensures { (t : Task) → Tabled t tables.now → Uncut t tables.now.shape.columns blocks.old
        → RunEnds (refine t spare []) result tables.now.shape.steps cuts.old cuts.new path.new }
{
    let mut dist = [0u64; Model::BLOCKS];
    let mut from = Block(0);
    for made in 0..spare {
        let seen = look(tables, blocks, from, &mut dist, path);
        let Seen::Flaw { cut, .. } = seen else {
            return seen.end(blocks.count);
        };
        put_cut(made, cut, cuts);
        from = start_block(from, cut, blocks.count, tables);
        blocks.make_cut(tables.shape.columns, cut);
    }
    look(tables, blocks, from, &mut dist, path).end(blocks.count)
}
