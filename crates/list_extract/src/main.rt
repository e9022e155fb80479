// Lists the pairs of records with equal meaning in the document on standard input: a line `records R pairs P`, then a line
// for each pair, the earlier record first; or one line `refused C at N` (01, "Extracts worked by hand"). The contract of
// `print_listing::print` says it byte for byte. One byte more than the limit is read, so that a document over it can be answered.
#![tactic(auto)]

use std::io;

// The bytes that are read: one more than the limit.
const INPUT: usize = token::LONGEST + 1;

fn main(rt: HostRuntime) -> io::Result<()> {
    let mut doc = [0u8; INPUT];
    let size = console::input_whole(&rt, &mut rt.reader(), &mut doc)?;
    let mut text = print_listing::blank();
    let from = print_listing::print(&doc[..size], &mut text);
    console::write_output(&rt, &text[from..])
}
