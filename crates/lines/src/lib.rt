// The lines that the program prints, put into lent bytes.
#![tactic(auto)]

ghost use Rattle.std.specs.Prelude.{◌≡◌, ◌+◌, ◌*◌, ◌≤◌, ◌<◌, length};
ghost use Rattle.task.specs.Sizes.{limits};
ghost use Rattle.running.specs.Counts.{Counted};
ghost use Rattle.io.specs.Counts.{IsPrefixLen};
ghost use Rattle.fields.specs.Judging.{each};
ghost use Rattle.fields.specs.Refusals.{Refused, told};
ghost use Rattle.lines.specs.Lines.{line_bytes, output_bytes, most_digits, decimal, labelled, first_line, row_line, Put, ran_lines, Prints};

use fields::field::field;
use planner::{Answer, Refusal, run};
use task::Model;
use values::PlaceValues;

// As many decimal digits are enough for 64 bits.
const DIGITS: usize = 20;

// Puts a text from a place on, and returns the place after it.
fn put_text(text: &[u8], out: &mut [u8], at: usize) -> usize
    requires { at + length text.now ≤ length out.old }
    ensures { Put at text.now out.old result out.new }
{
    let next = at + text.len();
    out[at..next].copy_from_slice(text);
    next
}

// Puts a number in decimal.
fn put_number(n: u64, out: &mut [u8], at: usize) -> usize
    requires { at + most_digits ≤ length out.old }
    ensures put { Put at (decimal n) out.old result out.new }
    ensures short { result ≤ at + most_digits }
{
    let mut text = [0u8; DIGITS];
    let k = io::decimal(n, &mut text);
    put_text(&text[..k], out, at)
}

// Puts a text and a number.
fn put_labelled(text: &[u8], n: u64, out: &mut [u8], at: usize) -> usize
    requires { at + length text.now + most_digits ≤ length out.old }
    ensures put { Put at (labelled text.now n) out.old result out.new }
    ensures short { result ≤ at + length text.now + most_digits }
{
    let next = put_text(text, out, at);
    put_number(n, out, next)
}

// The line of a refusal, whatever its number: that is what the first line promised before a refusal was an enum.
pub fn put_refused(number: u8, out: &mut [u8]) -> usize
    requires { line_bytes ≤ length out.old }
    ensures { Put 0 (first_line (Refused number)) out.old result out.new }
{
    let next = put_labelled(b"refused ", u64::from(number), out, 0);
    put_text(b"\n", out, next)
}

// The first line: kind, cost, steps, blocks, in the byte strings of the rules. Counts are cast, since std has no From of a usize.
pub fn put_first_line(answer: Result<Answer, Refusal>, out: &mut [u8]) -> usize
    requires counted { Counted (told answer) }
    requires room { line_bytes ≤ length out.old }
    ensures { Put 0 (first_line (told answer)) out.old result out.new }
{
    let answer = match answer {
        Ok(answer) => answer,
        Err(refusal) => return put_refused(refusal.number(), out),
    };
    match answer {
        Answer::Plan {
            cost,
            steps,
            blocks,
        } => {
            let a = put_labelled(b"plan ", u64::from(cost), out, 0);
            let b = put_labelled(b" steps ", steps as u64, out, a);
            let c = put_labelled(b" blocks ", blocks as u64, out, b);
            put_text(b"\n", out, c)
        }
        Answer::NoPlan { blocks } => {
            let a = put_labelled(b"no plan blocks ", blocks as u64, out, 0);
            put_text(b"\n", out, a)
        }
        Answer::Open { estimate, blocks } => {
            let a = put_labelled(b"open ", u64::from(estimate), out, 0);
            let b = put_labelled(b" blocks ", blocks as u64, out, a);
            put_text(b"\n", out, b)
        }
    }
}

// Row i of a list: its number counted from 1, step, tenths, tenths left.
fn put_row(list: &[u32], i: usize, out: &mut [u8], at: usize) -> usize
    requires within { i * 3 + 3 ≤ length list.now }
    requires room { at + line_bytes ≤ length out.old }
    ensures put { Put at (row_line list.now i) out.old result out.new }
    ensures short { result ≤ at + line_bytes }
{
    let place = i * 3;
    let a = put_number(i as u64 + 1, out, at);
    let b = put_labelled(b" ", u64::from(list[place]), out, a);
    let c = put_labelled(b" ", u64::from(list[place + 1]), out, b);
    let d = put_labelled(b" ", u64::from(list[place + 2]), out, c);
    put_text(b"\n", out, d)
}

// The rows of a list, a line for each.
pub fn put_rows(list: &[u32], count: usize, out: &mut [u8], at: usize) -> usize
    requires within { count * 3 ≤ length list.now }
    requires room { at + count * line_bytes ≤ length out.old }
    ensures put { Put at (each count (row_line list.now)) out.old result out.new }
    ensures short { result ≤ at + count * line_bytes }
{
    let mut next = at;
    for i in 0..count {
        next = put_row(list, i, out, next);
    }
    next
}

// The lines of a run, with two lists to work in.
fn put_run(
    sheet: &[u8],
    room: u32,
    cuts: &mut PlaceValues,
    rows: &mut PlaceValues,
    out: &mut [u8],
) -> usize
    requires { output_bytes ≤ length out.old }
    ensures put { Put 0 (ran_lines sheet.now room) out.old result out.new }
    ensures short { result ≤ output_bytes }
{
    match run(sheet, room, cuts, rows) {
        Ok(answer) => {
            let next = put_first_line(Ok(answer), out);
            put_rows(rows, answer.row_count(), out, next)
        }
        Err(refusal) => put_first_line(Err(refusal), out),
    }
}

// What the program prints for an input: the room in 16 bits, then a model sheet. It returns how many bytes were put.
pub fn put_printed(input: &[u8], out: &mut [u8]) -> usize
    requires { output_bytes ≤ length out.old }
    ensures { Prints input.now out.old result out.new × IsPrefixLen result out.new }
{
    if input.len() < 2 {
        return put_first_line(Err(Refusal::Incomplete), out);
    }
    let room = field(input, 0, 16);
    let mut cuts: PlaceValues = [0; (Model::BLOCKS - 1) * 3];
    let mut rows: PlaceValues = [0; (Model::BLOCKS - 1) * 3];
    put_run(&input[2..], room, &mut cuts, &mut rows, out)
}
