// Shows the text of one value: standard input is a token byte and then the payload. The contract of `print_value::print` says byte
// for byte what is printed. The input holds the token, the longest payload, and one byte more, so that a longer one can be
// answered.
#![tactic(auto)]

use std::io;

// The bytes that are read: the token, and one byte more than the longest payload.
const INPUT: usize = token::LONGEST + 2;

fn main(rt: HostRuntime) -> io::Result<()> {
    let mut input = [0u8; INPUT];
    let size = console::input_whole(&rt, &mut rt.reader(), &mut input)?;
    let mut text = print_value::blank();
    let from = print_value::print(&input[..size], &mut text);
    console::write_output(&rt, &text[from..])
}
