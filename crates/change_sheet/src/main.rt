// Prints a change sheet. Standard input has the room in 16 bits, then a model sheet; what is printed for it is the contract of put_printed.
// The largest sheet has 3,365 bytes. Of a longer input only the first 4,096 bytes are read: its sheet has bytes that follow, and it is
// refused by an earlier field's number or by 6, which the bytes read already show.
#![tactic(auto)]

ghost use Rattle.std.specs.Prelude.{◌≤◌, length};

use lines::put_printed;
use std::io::{Read, Write};

// How much of the input is read: `input_bytes` of the definitions.
const INPUT_BYTES: usize = 4096;

// Room for the longest change sheet: `output_bytes` of the definitions, for which put_printed asks.
const OUTPUT_BYTES: usize = 65536;

// Reads until `buf` is full, the input ends or a read fails, and returns how many bytes stand at its start.
fn read_full<R: Read>(input: &mut R, buf: &mut [u8]) -> usize
    ensures { result ≤ length buf.new }
{
    let mut done = 0;
    while done < buf.len() {
        match input.read(&mut buf[done..]) {
            Ok(0) | Err(_) => break,
            Ok(n) => done += n,
        }
    }
    done
}

// Writes all of `bytes`, or stops at the first write that takes nothing or fails: what was written before it stays. Unlike std's, it does not go on after an
// interruption.
fn write_all<W: Write>(output: &mut W, bytes: &[u8]) {
    let mut done = 0;
    while done < bytes.len() {
        match output.write(&bytes[done..]) {
            Ok(0) | Err(_) => break,
            Ok(n) => done += n,
        }
    }
}

fn main(rt: HostRuntime) {
    let mut input = [0u8; INPUT_BYTES];
    let n = read_full(&mut rt.stdin(), &mut input);
    let mut out = [0u8; OUTPUT_BYTES];
    let k = put_printed(&input[..n], &mut out);
    write_all(&mut rt.stdout(), &out[..k]);
}
