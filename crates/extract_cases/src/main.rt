// Runs reading, rewriting and listing on documents. The arguments name files with one case to a line: a name, a space, and
// the document's bytes in hexadecimal. For each case a line with its name is written, then what the reading program writes,
// then what rewriting gives (forms.rt) and what listing gives (pairs.rt).
#![tactic(auto)]

mod forms;
mod pairs;

use std::io;

// Writes what the reading program writes.
fn write_reading(rt: &impl Print, doc: &[u8]) -> io::Result<()> {
    let mut text = print_reading::blank();
    let from = print_reading::print(doc, &mut text);
    rt.write_all(&text[from..])
}

// The three jobs on one document.
fn run_jobs(rt: &impl Print, doc: &[u8]) -> io::Result<()> {
    write_reading(rt, doc)?;
    forms::run(rt, doc)?;
    pairs::run(rt, doc)
}

// The case of one line. Digits that do not all become bytes are no document, and are said to be none.
fn run_case(rt: &impl Print, line: &[u8]) -> io::Result<()> {
    let end = cases::word_end(line, 0);
    let from = cases::after_space(line, end);
    let mut doc = [0u8; cases::DOCUMENT];
    let size = cases::bytes(&line[from..], &mut doc);
    rt.write_all(&line[..end])?;
    rt.write_all(b"\n")?;
    if line.len() - from != 2 * size {
        return rt.write_all(b"not hexadecimal, or over 65,537 bytes\n");
    }
    run_jobs(rt, &doc[..size])
}

// The cases of a text, line by line.
fn run_lines(rt: &impl Print, text: &[u8]) -> io::Result<()> {
    for line in text.split_inclusive(|b| *b == b'\n') {
        run_case(rt, line.strip_suffix(b"\n").unwrap_or(line))?;
    }
    Ok(())
}

fn main(rt: HostRuntime) -> io::Result<()> {
    let mut text = cases::text_buffer();
    let size = cases::load_all(&rt, &mut text)?;
    run_lines(&rt, &text[..size])
}
