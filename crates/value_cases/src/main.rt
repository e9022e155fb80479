// Runs the worked cases of numbers and values: each line of standard input is a token and what follows it, in
// hexadecimal; it is written again with what the token carries.
#![tactic(auto)]

ghost use Rattle.token.specs.Entries.{Listed};
ghost use Rattle.std.specs.Prelude.{◌<◌, length};

use std::io;
use value::Field;

// The bytes that are read.
const INPUT: usize = 65536;

fn answer(rt: &impl Print, table: &[u16; 256], doc: &[u8]) -> io::Result<()>
    requires { Listed table.now × (0 < length doc.now) }
{
    match value::read(token::shape_at(table, doc[0]), doc, 0) {
        Ok(Field::Payload { place, size }) => { print!(rt; " -> payload at {place} size {size}") }
        Ok(Field::Reference { number, next }) => {
            print!(rt; " -> qname {} next {next}", number.0)
        }
        Err(r) => { print!(rt; " -> refused {} at {}", r.fault.number(), r.place) }
    }
}

fn case(rt: &impl Print, table: &[u16; 256], line: &[u8]) -> io::Result<()>
    requires { Listed table.now }
{
    let mut doc = [0u8; 4096];
    let size = cases::bytes(line, &mut doc);
    rt.write_all(line)?;
    if 0 < size {
        answer(rt, table, &doc[..size])?;
    }
    rt.write_all(b"\n")
}

fn run(rt: &impl Print, table: &[u16; 256], text: &[u8]) -> io::Result<()>
    requires { Listed table.now }
{
    for line in text.split_inclusive(|b| *b == b'\n') {
        case(rt, table, line.strip_suffix(b"\n").unwrap_or(line))?;
    }
    Ok(())
}

fn main(rt: HostRuntime) -> io::Result<()> {
    let mut text = [0u8; INPUT];
    let size = console::input_whole(&rt, &mut rt.reader(), &mut text)?;
    run(&rt, &token::table(), &text[..size])
}
