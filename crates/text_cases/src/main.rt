// Runs cases of value text. The arguments name files with one case to a line: a token, a payload, the size of a buffer and the
// expected answer. Each line is written again with the answer that `show` and `part` give, so that the output equals the files.
#![tactic(auto)]

use std::io;
use text::Shown;

// The size of the buffer, and what stands in it before.
const ROOM: usize = 1100;

const PATTERN: u8 = 165;

// Writes bytes in hexadecimal, or `-` for none.
fn put_bytes(rt: &impl Print, bytes: &[u8]) -> io::Result<()> {
    if bytes.is_empty() {
        return rt.write_all(b"-");
    }
    for b in bytes {
        print!(rt; "{b:02X}")?;
    }
    Ok(())
}

// Writes an answer number, and its place or count.
fn put_answer(rt: &impl Print, number: u32, count: usize) -> io::Result<()> {
    print!(rt; "{number} {count} ")
}

// How many bytes of the buffer an answer may have changed.
fn written(shown: Shown) -> usize {
    match shown {
        Shown::Made(n) => n,
        Shown::Own(_) | Shown::Short(_) | Shown::NoText => 0,
    }
}

// Writes what `show` answered, as a number and its place or count.
fn put_shown(rt: &impl Print, shown: Shown) -> io::Result<()> {
    match shown {
        Shown::Own(n) | Shown::Made(n) => put_answer(rt, token::ACCEPTED, n),
        Shown::Short(n) => put_answer(rt, token::NO_ROOM, n),
        Shown::NoText => put_answer(rt, token::NO_TEXT, 0),
    }
}

// Writes where the text is.
fn put_where(rt: &impl Print, shown: Shown) -> io::Result<()> {
    match shown {
        Shown::Own(_) => rt.write_all(b" payload"),
        Shown::Made(_) => rt.write_all(b" buffer"),
        Shown::Short(_) | Shown::NoText => rt.write_all(b" none"),
    }
}

// Writes the second half of a line.
fn put_result<'a>(
    rt: &impl Print,
    payload: &'a [u8],
    buffer: &'a [u8],
    shown: Shown,
) -> io::Result<()> {
    rt.write_all(b" -> ")?;
    put_shown(rt, shown)?;
    put_bytes(rt, text::part(payload, buffer, shown))?;
    put_where(rt, shown)?;
    if cases::changed(buffer, written(shown), PATTERN) {
        rt.write_all(b" CHANGED")?;
    }
    Ok(())
}

// Shows a value, and writes the result.
fn show_case<'a>(
    rt: &impl Print,
    token: u8,
    payload: &'a [u8],
    buffer: &'a mut [u8],
) -> io::Result<()> {
    let shown = text::show(token, payload, buffer);
    put_result(rt, payload, buffer, shown)
}

// Runs the case of one line.
fn run_case(rt: &impl Print, line: &[u8]) -> io::Result<()> {
    let token_end = cases::word_end(line, 0);
    let payload_at = cases::after_space(line, token_end);
    let payload_end = cases::word_end(line, payload_at);
    let size_at = cases::after_space(line, payload_end);
    let size_end = cases::word_end(line, size_at);
    let mut token = [0u8; 1];
    cases::bytes(&line[..token_end], &mut token);
    let mut payload = [0u8; 1024];
    let count = cases::bytes(&line[payload_at..payload_end], &mut payload);
    let size = cases::decimal(&line[size_at..size_end]).min(ROOM);
    let mut buffer = [PATTERN; ROOM];
    rt.write_all(&line[..size_end])?;
    show_case(rt, token[0], &payload[..count], &mut buffer[..size])
}

// Whether a line is a comment.
fn is_comment(line: &[u8]) -> bool {
    line.is_empty() || line.starts_with(b"#")
}

// Writes a line again, with its own answer.
fn run_line(rt: &impl Print, line: &[u8]) -> io::Result<()> {
    if is_comment(line) {
        rt.write_all(line)?;
    } else {
        run_case(rt, line)?;
    }
    rt.write_all(b"\n")
}

// Runs the cases of a text, line by line.
fn run_lines(rt: &impl Print, text: &[u8]) -> io::Result<()> {
    for line in text.split_inclusive(|b| *b == b'\n') {
        run_line(rt, line.strip_suffix(b"\n").unwrap_or(line))?;
    }
    Ok(())
}

fn main(rt: HostRuntime) -> io::Result<()> {
    let mut text = cases::text_buffer();
    let size = cases::load_all(&rt, &mut text)?;
    run_lines(&rt, &text[..size])
}
