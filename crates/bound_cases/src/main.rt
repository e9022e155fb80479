// Each job at the bound of 65,536 bytes (01, "Numbers that bound the work"): a document of that length is accepted and one of a byte
// more refused with 1; so is a payload of that length shown, and one of a byte more has no text. The document is a header and one
// comment whose text fills it.
#![tactic(auto)]

ghost use Rattle.std.specs.Prelude.{◌≡◌, ◌≤◌, length};

use std::io;
use text::Shown;

// The longest document, and one byte more.
const ROOM: usize = token::LONGEST + 1;

// The bytes of the text of the longest payload in hexadecimal.
const TEXT: usize = 4 * token::LONGEST;

// The tokens of a comment and of a blob whose text is in hexadecimal.
const COMMENT_TOKEN: u8 = 0xF3;

const XSD_BINHEX: u8 = 0x84;

// The numbers in the list of pairs.
const PAIRS: usize = 16384;

// Writes a job's answer in one line.
fn write_answer(rt: &impl Print, job: &str, number: u32, place: usize) -> io::Result<()> {
    println!(rt; "{job} {number} at {place}")
}

fn read(rt: &impl Print, doc: &[u8]) -> io::Result<()> {
    let mut names = [0u32; cases::NAMES];
    let mut qnames = [0u32; cases::QNAMES];
    let mut events = [0u32; cases::EVENTS];
    let a: machine::Answer = reader::read(doc, &mut names, &mut qnames, &mut events);
    write_answer(rt, "read", a.number, a.place)
}

fn rewrite(rt: &impl Print, doc: &[u8]) -> io::Result<()> {
    let mut names = [0u32; cases::NAMES];
    let mut qnames = [0u32; cases::QNAMES];
    let mut events = [0u32; cases::EVENTS];
    let mut out = [0u8; token::LONGEST];
    let a: rewriter_contract::Answer = rewriter::rewrite(
        doc,
        &mut names,
        &mut qnames,
        &mut events,
        &mut out,
    );
    write_answer(rt, "rewrite", a.number, a.place)
}

fn list(rt: &impl Print, doc: &[u8]) -> io::Result<()> {
    let mut names = [0u32; cases::NAMES];
    let mut qnames = [0u32; cases::QNAMES];
    let mut events = [0u32; cases::EVENTS];
    let mut pairs = [0u32; PAIRS];
    let a: lister_contract::Answer = lister::list(
        doc,
        &mut names,
        &mut qnames,
        &mut events,
        &mut pairs,
    );
    write_answer(rt, "list", a.number, a.place)
}

// The payload of a blob, in hexadecimal.
fn show(rt: &impl Print, payload: &[u8]) -> io::Result<()> {
    let mut buffer = [0u8; TEXT];
    match text::show(XSD_BINHEX, payload, &mut buffer) {
        Shown::Own(n) | Shown::Made(n) => write_answer(rt, "show", token::ACCEPTED, n),
        Shown::Short(n) => write_answer(rt, "show", token::NO_ROOM, n),
        Shown::NoText => write_answer(rt, "show", token::NO_TEXT, 0),
    }
}

// The jobs on the first `size` bytes.
fn run(rt: &impl Print, bytes: &[u8], size: usize) -> io::Result<()>
    requires { size ≤ length bytes.now }
{
    let front = &bytes[..size];
    read(rt, front)?;
    rewrite(rt, front)?;
    list(rt, front)?;
    show(rt, front)
}

// A header, and a comment of 32,763 units whose length takes four bytes: the units that follow are zeros, up to byte 65,536. The
// `ensures` gives only the length, so that no proof computes with a list so long.
fn document() -> [u8; ROOM]
    ensures { 65537 ≡ length result }
{
    let mut doc = [0u8; ROOM];
    doc[0] = 0xDF;
    doc[1] = 0xFF;
    doc[2] = 0x01;
    doc[3] = 0xB0;
    doc[4] = 0x04;
    doc[5] = COMMENT_TOKEN;
    doc[6] = 0xFB;
    doc[7] = 0xFF;
    doc[8] = 0x81;
    doc[9] = 0x00;
    doc
}

fn main(rt: HostRuntime) -> io::Result<()> {
    let doc = document();
    run(&rt, &doc, token::LONGEST)?;
    run(&rt, &doc, ROOM)
}
