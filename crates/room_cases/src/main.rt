// Runs reading into small tables: each line of standard input is a document in hexadecimal and the lengths of three
// tables. It is written again, followed by what reading answers and by the rows; `changed` where a number past the rows
// is no longer what stood there.
#![tactic(auto)]

ghost use Rattle.std.specs.Prelude.{◌+◌, ◌≤◌, ◌<◌, length};

use machine::Answer;
use std::io;

// The bytes that are read.
const INPUT: usize = 65536;

const MARK: u32 = 2779096485;

fn report_change(rt: &impl Print, table: &[u32], from: usize) -> io::Result<()> {
    if cases::changed(table, from, MARK) {
        rt.write_all(b"changed\n")?;
    }
    Ok(())
}

// Reads into the front of the tables: so many numbers of each are lent.
fn read_front(
    doc: &[u8],
    names: &mut [u32],
    qnames: &mut [u32],
    events: &mut [u32],
    n: usize,
    q: usize,
    e: usize,
) -> Answer
    requires { (n ≤ length names.old) × (q ≤ length qnames.old) × (e ≤ length events.old) }
{
    reader::read(doc, &mut names[..n], &mut qnames[..q], &mut events[..e])
}

// Writes the answer, and as many rows as it tells of and the tables hold.
fn write_report(
    rt: &impl Print,
    names: &[u32],
    qnames: &[u32],
    events: &[u32],
    a: Answer,
) -> io::Result<()> {
    let mut text = [0u8; print_reading::PRINTED];
    let end = print_rows::put_rows(
        &mut text,
        names,
        qnames,
        events,
        a.names
            .min(names.len() / token::NAME_WIDTH)
            .min(token::NAME_ROWS),
        a.qnames
            .min(qnames.len() / token::QNAME_WIDTH)
            .min(token::QNAME_ROWS),
        a.events
            .min(events.len() / token::EVENT_WIDTH)
            .min(token::EVENT_ROWS),
    );
    let from = print_reading::put_answer(&mut text, end, a);
    rt.write_all(&text[from..])
}

// Reads into the front of three tables of marks, and writes what came out.
fn read_into(rt: &impl Print, doc: &[u8], n: usize, q: usize, e: usize) -> io::Result<()> {
    let mut names = [MARK; 64];
    let mut qnames = [MARK; 64];
    let mut events = [MARK; 512];
    let a = read_front(
        doc,
        &mut names,
        &mut qnames,
        &mut events,
        n.min(64),
        q.min(64),
        e.min(512),
    );
    write_report(rt, &names, &qnames, &events, a)?;
    report_change(
        rt,
        &names,
        token::NAME_WIDTH * a.names.min(token::NAME_ROWS),
    )?;
    report_change(
        rt,
        &qnames,
        token::QNAME_WIDTH * a.qnames.min(token::QNAME_ROWS),
    )?;
    report_change(
        rt,
        &events,
        token::EVENT_WIDTH * a.events.min(token::EVENT_ROWS),
    )
}

fn case(rt: &impl Print, line: &[u8]) -> io::Result<()> {
    let mut doc = [0u8; 4096];
    let mut words = line.split(|b| *b == b' ');
    let size = cases::bytes(words.next().unwrap_or(b""), &mut doc);
    let n = cases::decimal(words.next().unwrap_or(b""));
    let q = cases::decimal(words.next().unwrap_or(b""));
    let e = cases::decimal(words.next().unwrap_or(b""));
    rt.write_all(line)?;
    rt.write_all(b"\n")?;
    read_into(rt, &doc[..size], n, q, e)
}

fn run(rt: &impl Print, text: &[u8]) -> io::Result<()> {
    for line in text.split_inclusive(|b| *b == b'\n') {
        case(rt, line.strip_suffix(b"\n").unwrap_or(line))?;
    }
    Ok(())
}

fn main(rt: HostRuntime) -> io::Result<()> {
    let mut text = [0u8; INPUT];
    let size = console::input_whole(&rt, &mut rt.reader(), &mut text)?;
    run(&rt, &text[..size])
}
