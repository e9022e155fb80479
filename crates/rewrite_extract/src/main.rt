// Rewrites the document on standard input to its canonical form on standard output. A refusal writes nothing there, and one
// line `refused C at N` to standard error. One byte more than the limit is read, so that a document over it can be answered.
#![tactic(auto)]

use rewriter_contract::Answer;
use std::io;

// The bytes that are read: one more than the limit.
const INPUT: usize = token::LONGEST + 1;

// The bytes of the longest line.
const LINE: usize = 43;

fn write_refusal(to: &impl Print, a: Answer) -> io::Result<()> {
    let mut text = [0u8; LINE];
    let from = print_lines::put_line(
        &mut text,
        LINE,
        b"refused ",
        a.number as usize,
        b" at ",
        a.place,
    );
    to.write_all(&text[from..])
}

// The form is the front of the output.
fn write_front(rt: &(impl Print + Eprint), out: &[u8], size: usize) -> io::Result<()> {
    if size <= out.len() {
        console::write_output(rt, &out[..size])?;
    }
    Ok(())
}

fn main(rt: HostRuntime) -> io::Result<()> {
    let mut doc = [0u8; INPUT];
    let size = console::input_whole(&rt, &mut rt.reader(), &mut doc)?;
    let mut names = [0u32; token::NAME_TABLE];
    let mut qnames = [0u32; token::QNAME_TABLE];
    let mut events = [0u32; token::EVENT_TABLE];
    let mut out = [0u8; token::LONGEST];
    let answer = rewriter::rewrite(&doc[..size], &mut names, &mut qnames, &mut events, &mut out);
    if answer.number != 0 {
        return write_refusal(&rt.stderr(), answer);
    }
    write_front(&rt, &out, answer.length)
}
