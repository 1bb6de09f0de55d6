// The run, the question and the replay as the historian calls them, a C program that passes byte lists and numbers: `historian_c` has them for it.
// Nothing is asked of the caller.
#![tactic(auto)]

ghost use Rattle.std.specs.Prelude.{Err, ◌≡◌, ◌+◌, ◌*◌, ◌≤◌};
ghost use Rattle.task.specs.Sizes.{limits};
ghost use Rattle.replay.specs.Replay.{row_named, told_replay};
ghost use Rattle.fields.specs.Refusals.{Done};
ghost use Rattle.running.specs.Counts.{Counted};
ghost use Rattle.historian.specs.Entries.{answer_number, EntryRuns, EntryAsks};
ghost use Rattle.historian.specs.ReplayEntry.{replay_number, EntryReplays};

use planner::{Answer, ReplayRefusal, question, replay, run};
use running::{cut_values, row_values};
use task::Model;
use values::{PlaceValues, get_values, put_values};

// How many bytes a value takes, and a place of three of them.
const VALUE: usize = 4;

const PLACE: usize = 12;

// What a kind, a block and a step weigh in an answer number.
const KIND: u64 = 1 << 56;

const BLOCK: u64 = 1 << 44;

const STEP: u64 = 1 << 32;

// Kind, blocks, steps and value in one number. Counts are cast, since std has no From of a usize.
#[tactic(auto, unfolding(running::specs::Counts::Counted, crate::specs::Entries::answer_number))]
fn answer_number(answer: Answer) -> u64
    requires { Counted (Done answer) }
    ensures { result ≡ answer_number (Done answer) }
{
    match answer {
        Answer::Plan {
            cost,
            steps,
            blocks,
        } => KIND + blocks as u64 * BLOCK + steps as u64 * STEP + u64::from(cost),
        Answer::NoPlan { blocks } => 2 * KIND + blocks as u64 * BLOCK,
        Answer::Open { estimate, blocks } => 3 * KIND + blocks as u64 * BLOCK + u64::from(estimate),
    }
}

// A run on lists of bytes, with two lists of numbers to work in. They are lent, so that their places stay out of the proof; the same below.
fn run_in(
    sheet: &[u8],
    room: u32,
    cut_list: &mut PlaceValues,
    row_list: &mut PlaceValues,
    cuts: &mut [u8],
    rows: &mut [u8],
) -> u64
    ensures { EntryRuns sheet.now room cuts.old rows.old result cuts.new rows.new }
{
    let m = (cuts.len() / PLACE).min(Model::BLOCKS - 1) * 3;
    let n = (rows.len() / PLACE).min(Model::BLOCKS - 1) * 3;
    match run(sheet, room, &mut cut_list[..m], &mut row_list[..n]) {
        Ok(answer) => {
            put_values(cut_list, cut_values(answer), cuts);
            put_values(row_list, row_values(answer), rows);
            answer_number(answer)
        }
        Err(refusal) => u64::from(refusal.number()),
    }
}

// A question on lists of bytes, with a list of numbers to work in.
fn ask_in(
    model: &[u8],
    sheet: &[u8],
    states: &[u8],
    list: &mut [u32; Model::STATES],
    estimates: &mut [u8],
) -> u32
    ensures { EntryAsks model.now sheet.now states.now estimates.old result estimates.new }
{
    let n = (estimates.len() / VALUE).min(Model::STATES);
    match question(model, sheet, states, &mut list[..n]) {
        Ok(asked) => {
            put_values(list, asked, estimates);
            0
        }
        Err(refusal) => u32::from(refusal.number()),
    }
}

// A refusal's number is the value, and 14 has its row in the field of the steps.
#[tactic(auto, unfolding(replay::specs::Replay::row_named, crate::specs::ReplayEntry::replay_number))]
fn replay_refusal(refusal: ReplayRefusal) -> u64
    requires { row_named (told_replay (Err refusal)) ≤ limits.log + 1 }
    ensures { result ≡ replay_number (told_replay (Err refusal)) }
{
    match refusal {
        ReplayRefusal::Judged(refusal) => u64::from(refusal.number()),
        ReplayRefusal::Step { row } => row as u64 * STEP + 14,
    }
}

// A replay on lists of bytes, with two lists of numbers to work in. One value more than a log may have is got, so that 15 is seen.
// Done is kind 1 with the number of rows in the field of the steps.
fn replay_in(
    model: &[u8],
    sheet: &[u8],
    log: &[u8],
    steps: &mut [u32; Model::LOG + 1],
    list: &mut [i32; Model::LOG * 3],
    rows: &mut [u8],
) -> u64
    ensures { EntryReplays model.now sheet.now log.now rows.old result rows.new }
{
    let n = (log.len() / VALUE).min(Model::LOG + 1);
    let m = (rows.len() / PLACE).min(Model::LOG) * 3;
    get_values(log, n, steps);
    match replay(model, sheet, &steps[..n], &mut list[..m]) {
        Ok(count) => {
            put_values(list, count * 3, rows);
            KIND + count as u64 * STEP
        }
        Err(refusal) => replay_refusal(refusal),
    }
}

// A run: three values of four bytes each for a cut and for a row. The answer is one number.
pub fn elhavir_run(sheet: &[u8], room: u32, cuts: &mut [u8], rows: &mut [u8]) -> u64
    ensures { EntryRuns sheet.now room cuts.old rows.old result cuts.new rows.new }
{
    let mut cut_list: PlaceValues = [0; (Model::BLOCKS - 1) * 3];
    let mut row_list: PlaceValues = [0; (Model::BLOCKS - 1) * 3];
    run_in(sheet, room, &mut cut_list, &mut row_list, cuts, rows)
}

// A question: four bytes for each estimate. It returns 0, or the refusal number.
pub fn elhavir_question(model: &[u8], sheet: &[u8], states: &[u8], estimates: &mut [u8]) -> u32
    ensures { EntryAsks model.now sheet.now states.now estimates.old result estimates.new }
{
    let mut list = [0u32; Model::STATES];
    ask_in(model, sheet, states, &mut list, estimates)
}

// A replay: four bytes for each step of the log, three values of four bytes each for a row. The answer is one number.
pub fn elhavir_replay(model: &[u8], sheet: &[u8], log: &[u8], rows: &mut [u8]) -> u64
    ensures { EntryReplays model.now sheet.now log.now rows.old result rows.new }
{
    let mut steps = [0u32; Model::LOG + 1];
    let mut list = [0i32; Model::LOG * 3];
    replay_in(model, sheet, log, &mut steps, &mut list, rows)
}
