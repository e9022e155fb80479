// Reads the document on standard input and prints the answer and the rows: the contract of `print_reading::print` says it byte for
// byte. One byte more than the limit is read, so that a document over it can be answered.
#![tactic(auto)]

use std::io;

// The bytes that are read: one more than the limit.
const INPUT: usize = token::LONGEST + 1;

fn main(rt: HostRuntime) -> io::Result<()> {
    let mut doc = [0u8; INPUT];
    let size = console::input_whole(&rt, &mut rt.reader(), &mut doc)?;
    let mut text = print_reading::blank();
    let from = print_reading::print(&doc[..size], &mut text);
    console::write_output(&rt, &text[from..])
}
