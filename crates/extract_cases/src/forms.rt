// Rewriting: the answer and the form in hexadecimal; then the same with an output that is one byte too small. `changed` where
// a byte past what was written is not what stood there.
ghost use Rattle.std.specs.Prelude.{◌≡◌, ◌≤◌, length};
ghost use Rattle.token.specs.Tokens.{longest};

use rewriter_contract::Answer;
use std::io;

// What stands in the output before.
const MARK: u8 = 165;

// The longest form, and its hexadecimal digits.
const FORM_ROOM: usize = 65536;

const DIGITS_ROOM: usize = 131072;

// Writes the answer in one line.
fn write_answer(rt: &impl Print, a: Answer) -> io::Result<()> {
    if a.number == 0 {
        print!(rt; "accepted {}", a.place)?;
    } else {
        print!(rt; "refused {} at {}", a.number, a.place)?;
    }
    println!(rt; " length {}", a.length)
}

// Writes bytes in hexadecimal, and a line feed.
fn write_digits(rt: &impl Print, bytes: &[u8]) -> io::Result<()>
    requires { length bytes.now ≤ longest }
{
    let mut text = [0u8; DIGITS_ROOM];
    let from = print_lines::put_hex(&mut text, DIGITS_ROOM, bytes);
    rt.write_all(&text[from..])?;
    rt.write_all(b"\n")
}

// Writes the form, and whether the bytes after it are no longer marks.
fn write_form(rt: &impl Print, out: &[u8], size: usize) -> io::Result<()>
    requires { length out.now ≤ longest }
{
    if out.len() < size {
        return Ok(());
    }
    write_digits(rt, &out[..size])?;
    if cases::changed(out, size, MARK) {
        rt.write_all(b"changed\n")?;
    }
    Ok(())
}

// Rewrites into the front of an output: so many bytes of it are lent.
fn rewrite_front(doc: &[u8], out: &mut [u8], room: usize) -> Answer
    requires { room ≤ length out.old }
    ensures { length out.new ≡ length out.old }
{
    let mut names = [0u32; cases::NAMES];
    let mut qnames = [0u32; cases::QNAMES];
    let mut events = [0u32; cases::EVENTS];
    rewriter::rewrite(doc, &mut names, &mut qnames, &mut events, &mut out[..room])
}

// Rewrites into an output of marks.
fn rewrite_into(rt: &impl Print, doc: &[u8], room: usize) -> io::Result<Answer>
    requires { room ≤ longest }
{
    let mut out = [MARK; FORM_ROOM];
    let a = rewrite_front(doc, &mut out, room);
    write_answer(rt, a)?;
    write_form(rt, &out, a.length)?;
    Ok(a)
}

// The room that is one byte too small for a form.
fn too_small(length: usize) -> usize
    ensures { result ≤ longest }
{
    length.saturating_sub(1).min(FORM_ROOM)
}

// Rewrites a document into an output with room for every form, and where it has a form, into one that is too small.
pub fn run(rt: &impl Print, doc: &[u8]) -> io::Result<()> {
    let a = rewrite_into(rt, doc, FORM_ROOM)?;
    if 0 < a.length {
        rewrite_into(rt, doc, too_small(a.length))?;
    }
    Ok(())
}
