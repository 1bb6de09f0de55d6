// Which blocks a step leads from, in words of 32 blocks.
#![tactic(auto)]

ghost use Rattle.std.specs.Prelude.{◌≡◌, Bool, cond, List, ℕ, ◌*◌, ◌^◌, ◌<◌, ◌≤◌, length};
ghost use Rattle.std.specs.Int.Bits.{bit_and};
ghost use Rattle.task.specs.Sizes.{limits, goal_row};
ghost use Rattle.blocks.specs.Flat.{past, row_of};
ghost use Rattle.blocks.specs.Masks.{lands_in};
ghost use Rattle.arcs.specs.Arcs.{fits_in};
ghost use Rattle.arcs.specs.Words.{word, words, words_for, word_of, bit_at, need_in, meets_in, held_in, open_in, wide_in, kept_part, arc_word};
ghost use Rattle.arcs.specs.Words.{RowAble, Able, RowMet, Met, Opened, Listed, Narrow};

use cutting::Blocks;
use masks::Tables;
use task::{BlockSets, ColumnSets, Model};

// Sets of blocks stand in words of 32 bits, a bit for each block.
pub const WORD: usize = 32;

pub const WORDS: usize = Model::BLOCKS / WORD;

// What is looked up of the arcs, in words of blocks, so that a turn of the search sees at once which of 32 open blocks have an arc into its block,
// the one settled last.
#[derive(Drop)]
pub struct Arcs {
    // How many words hold the blocks.
    pub used: usize,
    // Which blocks can take each step: a row for each word.
    pub able: [u32; WORDS * Model::STEPS],
    // Which blocks meet a set, one for each column: a row for each column. The sets are held beside them.
    pub meets: [u32; Model::COLUMNS * WORDS],
    pub held: ColumnSets,
    // The open blocks.
    pub left: [u32; WORDS],
    // The columns in which an open block does not meet the settled block, and how many they are: no heap, and the hottest loop goes over them.
    pub narrow: [usize; Model::COLUMNS],
    pub few: usize,
    pub ghost within: { used ≤ words },
    pub ghost listed: { Listed few narrow },
}

// The weight of a bit where a test passed, else 0.
fn bit_if(t: bool, i: usize) -> u32
    requires { i < word }
    ensures { result ≡ cond t (2 ^ i) 0 }
{
    if t { 1 << i } else { 0 }
}

// The blocks of word w that pass a test, as a mask.
fn word_where<F: Fn(usize) -> bool>(w: usize, test: F) -> u32
    requires within { w < words }
    requires callable { (a : ℕ) → a < limits.blocks → F.pre test a }
    ensures { (passes : ℕ → Bool) → ((a : ℕ) (r : _) → a < limits.blocks → F.post test a r → r ≡ passes a) → result ≡ word_of passes w }
{
    let mut v: u32 = 0;
    for i in 0..WORD {
        v += bit_if(test(w * WORD + i), i);
    }
    v
}

// The blocks of a mask that hold a need too.
fn with_need(v: u32, w: usize, j: usize, need: u32, sets: &BlockSets) -> u32
    requires { (w < words) × (j < limits.columns) }
    ensures { result ≡ bit_and v (word_of (need_in sets.now need j) w) }
{
    if v == 0 || need == 0 {
        return v;
    }
    v & word_where(w, |a| masks::lies(need, sets[a * Model::COLUMNS + j]))
}

// Whether a row of the tables lies in block a.
pub fn fits_in(tables: &Tables, row: usize, blocks: &Blocks, a: usize) -> bool
    requires { (row < goal_row) × (a < limits.blocks) }
    ensures { result ≡ fits_in tables.now.shape.columns tables.now.rows blocks.now.sets row a }
{
    let rs = row * Model::COLUMNS;
    let ra = a * Model::COLUMNS;
    masks::all_lie(tables.shape.columns, rs, ra, &tables.rows, &blocks.sets)
}

// The blocks of word w from which step s can be taken, as a mask.
fn able_word(tables: &Tables, blocks: &Blocks, s: usize, w: usize) -> u32
    requires { (s < limits.steps) × (w < words) }
    ensures { result ≡ word_of (fits_in tables.now.shape.columns tables.now.rows blocks.now.sets s) w }
{
    let rs = s * Model::COLUMNS;
    let mut v = u32::MAX;
    for j in 0..tables.shape.columns {
        v = with_need(v, w, j, tables.rows[rs + j], &blocks.sets);
    }
    v
}

// The row of word w in the table of blocks that can take a step.
fn fill_row(tables: &Tables, blocks: &Blocks, w: usize, able: &mut [u32; WORDS * Model::STEPS])
    requires { w < words }
    ensures { RowAble tables.now.shape.columns tables.now.shape.steps tables.now.rows blocks.now.sets w able.old able.new }
{
    let row = w * Model::STEPS;
    for s in 0..tables.shape.steps {
        able[row + s] = able_word(tables, blocks, s, w);
    }
}

// The row of column j in the table of blocks that meet a set.
fn fill_column(
    used: usize,
    j: usize,
    set: u32,
    sets: &BlockSets,
    meets: &mut [u32; Model::COLUMNS * WORDS],
)
    requires { (used ≤ words) × (j < limits.columns) }
    ensures { RowMet used sets.now j set meets.old meets.new }
{
    let row = j * WORDS;
    for w in 0..used {
        meets[row + w] = word_where(w, |a| sets[a * Model::COLUMNS + j] & set != 0);
    }
}

// The blocks of a mask that meet the settled block in a column, if the step keeps it.
fn kept_part(v: u32, land: u32, meet: u32) -> u32
    ensures { result ≡ kept_part v land meet }
{
    if land == 0 {
        return v & meet;
    }
    v
}

// A clause `rest` names the fields that a method leaves as they were and that a caller asks of.
impl Arcs {
    // Nothing is looked up yet.
    pub fn new(count: usize) -> Self
        requires { count ≤ limits.blocks }
        ensures used { result.used ≡ words_for count }
        ensures met { (columns : ℕ) (sets : List ℕ) → Met columns result.used sets (held_in result.held) result.meets }
    {
        Arcs {
            used: (count + (WORD - 1)) / WORD,
            able: [0; WORDS * Model::STEPS],
            meets: [0; Model::COLUMNS * WORDS],
            held: [0; Model::COLUMNS],
            left: [0; WORDS],
            narrow: [0; Model::COLUMNS],
            few: 0,
        }
    }

    // Looks up which blocks can take each step.
    pub fn fill_able(&mut self, tables: &Tables, blocks: &Blocks)
        ensures able { Able tables.now.shape.columns tables.now.shape.steps tables.now.rows blocks.now.sets self.new.used self.new.able }
        ensures rest { (self.new.used ≡ self.old.used) × (self.new.meets ≡ self.old.meets) × (self.new.held ≡ self.old.held)
            × (self.new.left ≡ self.old.left) × (self.new.narrow ≡ self.old.narrow) × (self.new.few ≡ self.old.few) }
    {
        for w in 0..self.used {
            fill_row(tables, blocks, w, &mut self.able);
        }
    }

    // Looks up which blocks are open: there, and not settled.
    fn fill_open(&mut self, count: usize, done: &[bool; Model::BLOCKS])
        ensures opened { Opened self.new.used (open_in count done.now) self.new.left }
        ensures rest { (self.new.used ≡ self.old.used) × (self.new.able ≡ self.old.able) × (self.new.meets ≡ self.old.meets) × (self.new.held ≡ self.old.held) }
    {
        for w in 0..self.used {
            self.left[w] = word_where(w, |a| a < count && !done[a]);
        }
    }

    // Looks up which blocks meet block b in each column. The rows stand for the sets that are held.
    fn fill_meets(&mut self, tables: &Tables, blocks: &Blocks, b: usize)
        requires block { b < limits.blocks }
        requires held { Met tables.now.shape.columns self.old.used blocks.now.sets (held_in self.old.held) self.old.meets }
        ensures held { Met tables.now.shape.columns self.new.used blocks.now.sets (held_in self.new.held) self.new.meets }
        ensures met { Met tables.now.shape.columns self.new.used blocks.now.sets (past blocks.now.sets (row_of b)) self.new.meets }
        ensures rest { (self.new.used ≡ self.old.used) × (self.new.able ≡ self.old.able) × (self.new.left ≡ self.old.left) }
    {
        let rb = b * Model::COLUMNS;
        for j in 0..tables.shape.columns {
            let set = blocks.sets[rb + j];
            if self.held[j] != set {
                fill_column(self.used, j, set, &blocks.sets, &mut self.meets);
                self.held[j] = set;
            }
        }
    }

    // Whether every open block meets the settled block in column j.
    fn is_wide(&self, j: usize) -> bool
        requires { j < limits.columns }
        ensures { result ≡ wide_in self.now.used self.now.meets self.now.left j }
    {
        let row = j * WORDS;
        masks::all_lie(self.used, 0, row, &self.left, &self.meets)
    }

    // Looks up the columns in which an open block does not meet the settled block. The other columns rule nothing out.
    fn fill_narrow(&mut self, columns: usize)
        requires { columns ≤ limits.columns }
        ensures narrow { Narrow columns self.new.used self.new.meets self.new.left self.new.few self.new.narrow }
        ensures rest { (self.new.used ≡ self.old.used) × (self.new.able ≡ self.old.able) × (self.new.meets ≡ self.old.meets) × (self.new.held ≡ self.old.held)
            × (self.new.left ≡ self.old.left) }
    {
        self.few = 0;
        for j in 0..columns {
            if !self.is_wide(j) {
                self.narrow[self.few] = j;
                self.few += 1;
            }
        }
    }

    // Turns to block b: looks up which blocks are open, which of them meet b, and in which columns one does not.
    pub fn turn_to(
        &mut self,
        tables: &Tables,
        blocks: &Blocks,
        b: usize,
        done: &[bool; Model::BLOCKS],
    )
        requires block { b < limits.blocks }
        requires held { Met tables.now.shape.columns self.old.used blocks.now.sets (held_in self.old.held) self.old.meets }
        ensures held { Met tables.now.shape.columns self.new.used blocks.now.sets (held_in self.new.held) self.new.meets }
        ensures met { Met tables.now.shape.columns self.new.used blocks.now.sets (past blocks.now.sets (row_of b)) self.new.meets }
        ensures opened { Opened self.new.used (open_in blocks.now.count done.now) self.new.left }
        ensures narrow { Narrow tables.now.shape.columns self.new.used self.new.meets self.new.left self.new.few self.new.narrow }
        ensures rest { (self.new.used ≡ self.old.used) × (self.new.able ≡ self.old.able) }
    {
        self.fill_open(blocks.count, done);
        self.fill_meets(tables, blocks, b);
        self.fill_narrow(tables.shape.columns);
    }

    // The open blocks of word w from which step s can be taken and that meet the settled block in every column that the step keeps, as a mask.
    pub fn arc_word(&self, tables: &Tables, s: usize, w: usize) -> u32
        requires { (s < limits.steps) × (w < words) }
        ensures { result ≡ arc_word self.now.few self.now.narrow (lands_in tables.now.rows) self.now.able self.now.meets self.now.left s w }
    {
        let land = (Model::LANDS + s) * Model::COLUMNS;
        let mut v = self.able[w * Model::STEPS + s] & self.left[w];
        for j in &self.narrow[..self.few] {
            if v == 0 {
                return 0;
            }
            v = kept_part(v, tables.rows[land + j], self.meets[j * WORDS + w]);
        }
        v
    }
}

// Whether bit i of a mask is 1.
pub fn has_bit(v: u32, i: usize) -> bool
    requires { i < word }
    ensures { result ≡ bit_at v i }
{
    v & (1 << i) != 0
}
