// Does a job so many times on one file and writes a sum over its results: for counting instructions (docs/PERFORMANCE.md).
// The arguments are the job, the number of times and the file's name. Where two jobs are in one program the compiler does not
// inline what both call, and counts are up to 17 % higher: the script `count` puts the call of one job in `main`.
#![tactic(auto)]

use std::io;
use std::rt::{Env, Files};
use text::Shown;

// The places of the arguments.
const JOB: usize = 1;

const COUNT: usize = 2;

const FILE: usize = 3;

// The numbers of the jobs, as the first argument has them: an enum would need the same match once more.
const READ: usize = 1;

const SHOW: usize = 2;

const REWRITE: usize = 3;

const LIST: usize = 4;

// The numbers in the list of pairs.
const PAIRS: usize = 16384;

// The bytes of the canonical form, and those of a value's text, four for each byte of its payload.
const FORM: usize = 65536;

const TEXT: usize = 262144;

// The sum of the events. What was written is looked at in each loop, so that the compiler keeps the writing.
fn repeat_read(doc: &[u8], count: usize) -> u64 {
    let mut names = [0u32; cases::NAMES];
    let mut qnames = [0u32; cases::QNAMES];
    let mut events = [0u32; cases::EVENTS];
    let mut sum: u64 = 0;
    for _ in 0..count {
        let a: machine::Answer = reader::read(doc, &mut names, &mut qnames, &mut events);
        sum = sum.wrapping_add(a.events as u64);
        sum = sum.wrapping_add(u64::from(names[0]));
        sum = sum.wrapping_add(u64::from(qnames[0]));
        sum = sum.wrapping_add(u64::from(events[0]));
    }
    sum
}

// The sum of the forms' lengths.
fn repeat_rewrite(doc: &[u8], count: usize) -> u64 {
    let mut names = [0u32; cases::NAMES];
    let mut qnames = [0u32; cases::QNAMES];
    let mut events = [0u32; cases::EVENTS];
    let mut out = [0u8; FORM];
    let mut sum: u64 = 0;
    for _ in 0..count {
        let a: rewriter_contract::Answer = rewriter::rewrite(
            doc,
            &mut names,
            &mut qnames,
            &mut events,
            &mut out,
        );
        sum = sum.wrapping_add(a.length as u64);
        sum = sum.wrapping_add(u64::from(out[0]));
    }
    sum
}

// The sum of the pairs.
fn repeat_list(doc: &[u8], count: usize) -> u64 {
    let mut names = [0u32; cases::NAMES];
    let mut qnames = [0u32; cases::QNAMES];
    let mut events = [0u32; cases::EVENTS];
    let mut pairs = [0u32; PAIRS];
    let mut sum: u64 = 0;
    for _ in 0..count {
        let a: lister_contract::Answer = lister::list(
            doc,
            &mut names,
            &mut qnames,
            &mut events,
            &mut pairs,
        );
        sum = sum.wrapping_add(a.pairs as u64);
        sum = sum.wrapping_add(u64::from(pairs[0]));
    }
    sum
}

// The bytes of the text, 0 where there is none.
fn size_of(shown: Shown) -> u64 {
    match shown {
        Shown::Own(n) | Shown::Made(n) => n as u64,
        Shown::Short(_) | Shown::NoText => 0,
    }
}

// The sum of the texts' lengths and of a byte of each buffer.
fn repeat_show(token: u8, payload: &[u8], count: usize) -> u64 {
    let mut buffer = [0u8; TEXT];
    let mut sum: u64 = 0;
    for _ in 0..count {
        let shown = text::show(token, payload, &mut buffer);
        sum = sum.wrapping_add(size_of(shown));
        let at = sum as usize % TEXT;
        sum = sum.wrapping_add(u64::from(buffer[at]));
    }
    sum
}

// A value is a token byte and then its payload.
fn repeat_value(value: &[u8], count: usize) -> u64 {
    let Some((token, payload)) = value.split_first() else {
        return 0;
    };
    repeat_show(*token, payload, count)
}

// Writes the sum in one line.
fn write_sum(rt: &impl Print, sum: u64) -> io::Result<()> {
    println!(rt; "{sum}")
}

// Reads the file so many times.
fn read<R: Files + Env + Print + Eprint>(rt: &R) -> io::Result<()> {
    let mut doc = [0u8; cases::DOCUMENT];
    let size = cases::load(rt, FILE, &mut doc)?;
    write_sum(rt, repeat_read(&doc[..size], cases::argument(rt, COUNT)))
}

// Shows the value in the file so many times.
fn show<R: Files + Env + Print + Eprint>(rt: &R) -> io::Result<()> {
    let mut value = [0u8; cases::DOCUMENT];
    let size = cases::load(rt, FILE, &mut value)?;
    write_sum(rt, repeat_value(&value[..size], cases::argument(rt, COUNT)))
}

// Rewrites the file so many times.
fn rewrite<R: Files + Env + Print + Eprint>(rt: &R) -> io::Result<()> {
    let mut doc = [0u8; cases::DOCUMENT];
    let size = cases::load(rt, FILE, &mut doc)?;
    write_sum(rt, repeat_rewrite(&doc[..size], cases::argument(rt, COUNT)))
}

// Lists the file so many times.
fn list<R: Files + Env + Print + Eprint>(rt: &R) -> io::Result<()> {
    let mut doc = [0u8; cases::DOCUMENT];
    let size = cases::load(rt, FILE, &mut doc)?;
    write_sum(rt, repeat_list(&doc[..size], cases::argument(rt, COUNT)))
}

// The three jobs on a document in turn.
fn all<R: Files + Env + Print + Eprint>(rt: &R) -> io::Result<()> {
    read(rt)?;
    rewrite(rt)?;
    list(rt)
}

// The job with a number; where none has it, the three on a document.
fn run<R: Files + Env + Print + Eprint>(rt: &R, job: usize) -> io::Result<()> {
    match job {
        READ => read(rt),
        SHOW => show(rt),
        REWRITE => rewrite(rt),
        LIST => list(rt),
        _ => all(rt),
    }
}

fn main(rt: HostRuntime) -> io::Result<()> {
    run(&rt, cases::argument(&rt, JOB))
}
