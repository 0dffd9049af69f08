// Replays recorded calls of the original Rust's arena layer on ours: standard input has a line of 53 bytes for
// each call, and for what it carries, says and leaves (rust/compare/src/bin/record_layer.rs); what comes out is
// how many lines were replayed and how many differ.
// No contract can say what is read or printed: that is done here, by `samples::input` and `samples::report`, and
// nothing here is public.
// What a line makes of a session and of the table is fixed by the contracts of `layer_samples`.
#![tactic(auto)]

use layer_samples::Session;
use samples::lines::Line;
use std::io;
use std::io::Read;

// The next line, if one comes. What is left at the end, shorter than a line, counts as a malformed one.
fn read_line<R: Read>(input: &mut R) -> io::Result<Option<Line>> {
    let mut text = [0u8; 53];
    let n = samples::input::read_full(input, &mut text)?;
    if n == 0 {
        return Ok(None);
    }
    if n < 53 {
        return Ok(Some(layer_samples::bad()));
    }
    Ok(Some(layer_samples::line_of(samples::lines::parse(&text, 0))))
}

// Nothing says that the input ends, so the lines are counted up to a number that no run reaches.
fn replay_all<R: Read>(input: &mut R) -> io::Result<Session> {
    let mut records = [table::records::blank_arena(); 32];
    let mut stamps = [0u32; 32768];
    let mut s = layer_samples::start();
    for _ in 0..u64::MAX {
        let Some(l) = read_line(input)? else {
            break;
        };
        s = layer_samples::replay_line(&mut records, &mut stamps, s, l);
    }
    Ok(s)
}

fn main(rt: HostRuntime) -> io::Result<()> {
    let s = replay_all(&mut rt.reader())?;
    samples::report::print(&rt, s.tally)
}
