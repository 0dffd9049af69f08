// Replays recorded answers of the original Rust on our functions: standard input has a line of 53 bytes
// for each (`samples::lines`), and what comes out is how many were replayed and how many differ.
// No contract can say what is read or printed: that is done here, by `samples::input` and `samples::report`, and
// nothing here is public. What a line says, our answer to it and the count are fixed by the modules' contracts.
#![tactic(auto)]

mod answers;
mod known;
mod pool;

ghost use Rattle.std.specs.Prelude.{◌+◌, ◌≤◌, length};

use samples::lines::Line;
use samples::tally::Tally;
use std::io;
use std::io::Read;

// 1,024 lines.
const BLOCK: usize = 54272;

const LINE: usize = 53;

// A line that says four numbers, replayed if there is such a call, and counted.
fn replay_numbers(line: Line, words: &mut [u32], t: Tally) -> Tally {
    if known::is_known(line.kind, line.a, line.b) {
        return t.answered(answers::agrees(line, words));
    }
    t.malformed()
}

// A line, replayed and counted.
fn replay_line(text: &[u8], words: &mut [u32], t: Tally) -> Tally
    requires { 53 ≤ length text.now }
{
    match samples::lines::parse(text, 0) {
        Some(line) => replay_numbers(line, words, t),
        None => t.malformed(),
    }
}

// Each line of a block. What is left at its end, shorter than a line, counts as a malformed one.
fn replay_lines(text: &[u8], words: &mut [u32], start: Tally) -> Tally {
    let mut t = start;
    for line in text.chunks(LINE) {
        t = if line.len() == LINE {
            replay_line(line, words, t)
        } else {
            t.malformed()
        };
    }
    t
}

// Reads a block and replays it. A block that is not full is the last.
fn replay_block<R: Read>(input: &mut R, words: &mut [u32], t: Tally) -> io::Result<Tally> {
    let mut buffer = [0u8; BLOCK];
    let n = samples::input::read_full(input, &mut buffer)?;
    if n < BLOCK {
        return Ok(replay_lines(&buffer[..n], words, t).ended());
    }
    Ok(replay_lines(&buffer[..n], words, t))
}

// Nothing says that the input ends, so the blocks are counted up to a number that no run reaches.
fn replay_all<R: Read>(input: &mut R, words: &mut [u32]) -> io::Result<Tally> {
    let mut t = Tally::none_yet();
    for _ in 0..u64::MAX {
        t = replay_block(input, words, t)?;
        if !t.goes_on() {
            break;
        }
    }
    Ok(t)
}

fn main(rt: HostRuntime) -> io::Result<()> {
    let mut words = [0u32; 2048];
    samples::report::print(&rt, replay_all(&mut rt.reader(), &mut words)?)
}
