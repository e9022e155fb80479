// Test cases as lines of text with bytes in hexadecimal: for the programs that run worked cases and vectors.
// Nothing here is part of a job, so its contracts say only what keeps the programs inside their buffers.
#![tactic(auto)]

ghost use Rattle.std.specs.Prelude.{◌≡◌, ◌+◌, ◌≤◌, ◌<◌, length};
ghost use Rattle.std.specs.Io.{ReadsAtMost};

use std::env::FillError;
use std::io::ErrorKind;
use std::rt::{Env, Files};
use std::{fs, io, str};

// The numbers in the three tables of reading at their full size.
pub const NAMES: usize = token::NAME_TABLE;

pub const QNAMES: usize = token::QNAME_TABLE;

pub const EVENTS: usize = token::EVENT_TABLE;

// The bytes of the largest document, and one more, so that a document over the limit is noticed.
pub const DOCUMENT: usize = token::LONGEST + 1;

// The text of a program's files of cases, and one byte more, so that a longer text is noticed.
pub const TEXT_ROOM: usize = 2097153;

// The bytes of the longest argument.
const ARGUMENT: usize = 4096;

// The end of the word that begins at a place: the next space, or the line's end.
pub fn word_end(line: &[u8], from: usize) -> usize
    requires { from ≤ length line.now }
    ensures { (from ≤ result) × (result ≤ length line.now) }
{
    let rest = &line[from..];
    from + rest.iter().position(|b| *b == b' ').unwrap_or(rest.len())
}

// The place after a word and the space that ends it.
pub fn after_space(line: &[u8], end: usize) -> usize
    requires { end ≤ length line.now }
    ensures { (end ≤ result) × (result ≤ length line.now) }
{
    if end < line.len() { end + 1 } else { end }
}

// The value of a hexadecimal digit, or 16.
pub fn digit(b: u8) -> u8
    ensures { result ≤ 16 }
{
    match b {
        b'0'..=b'9' => b - 48,
        b'A'..=b'F' => b - 55,
        _ => 16,
    }
}

// The bytes that a word's pairs of hexadecimal digits spell, up to the first other pair; how many there are.
pub fn bytes(word: &[u8], out: &mut [u8]) -> usize
    ensures { (result ≤ length out.new) × (length out.new ≡ length out.old) }
{
    let mut count = 0;
    for pair in word.chunks_exact(2) {
        let high = digit(pair[0]);
        let low = digit(pair[1]);
        if 15 < high || 15 < low || out.len() <= count {
            break;
        }
        out[count] = high * 16 + low;
        count += 1;
    }
    count
}

// The number that a word's decimal digits spell, up to the first other byte, at most 99,999,999.
pub fn decimal(word: &[u8]) -> usize
    ensures { result ≤ 99999999 }
{
    let mut value: usize = 0;
    for b in word {
        let d = digit(*b);
        let next = value * 10 + d as usize;
        if 9 < d || 99999999 < next {
            break;
        }
        value = next;
    }
    value
}

// Whether an element from `from` on is not the mark that stood there.
pub fn changed<T: PartialEq + Copy>(items: &[T], from: usize, mark: T) -> bool {
    items.iter().skip(from).any(|x| *x != mark)
}

// Whether the program has an argument at a place.
fn has_argument(rt: &impl Env, i: usize) -> bool {
    let mut word = [0u8; ARGUMENT];
    !matches!(rt.arg(i, &mut word), Err(FillError::NotPresent))
}

// The number that an argument of the program spells.
pub fn argument(rt: &impl Env, i: usize) -> usize
    ensures { result ≤ 99999999 }
{
    let mut word = [0u8; ARGUMENT];
    let length = rt.arg(i, &mut word).unwrap_or(0);
    decimal(&word[..length])
}

// Reads a file; how many bytes it has, as far as the buffer holds them.
fn read_file<R: Files>(rt: &R, path: &str, buffer: &mut [u8]) -> io::Result<usize>
    ensures within { ReadsAtMost result buffer.new }
    ensures kept { length buffer.new ≡ length buffer.old }
{
    let mut file = fs::open(rt, path)?;
    console::read_full(&mut file, buffer)
}

// Reads the file that an argument of the program names; how many bytes it has, as far as the buffer holds them. What cannot be
// opened or read is said on standard error. An error leaves any bytes in the buffer.
pub fn load<R: Files + Env + Eprint>(rt: &R, i: usize, buffer: &mut [u8]) -> io::Result<usize>
    ensures within { ReadsAtMost result buffer.new }
    ensures kept { length buffer.new ≡ length buffer.old }
{
    let mut word = [0u8; ARGUMENT];
    let length = rt.arg(i, &mut word).unwrap_or(0);
    let Ok(path) = str::from_utf8(&word[..length]) else {
        let error = io::Error::new(ErrorKind::InvalidInput, "not UTF-8");
        return Err(console::failed(rt, "a file's name", error));
    };
    read_file(rt, path, buffer).map_err(|e| console::failed(rt, path, e))
}

// Zeros for the text of the files. The `ensures` gives only the length, so that no proof computes with a list so long.
// No const parameter for the room: docs/PROVING.md names this function, and its body is one line.
pub fn text_buffer() -> [u8; TEXT_ROOM]
    ensures { 2097153 ≡ length result }
{
    [0; TEXT_ROOM]
}

// Reads the files that the program's arguments name, one behind the other; how many bytes they have. Where they do not leave a byte
// of the buffer free this is said, and none are given, as a part of the cases would look like the whole. An error leaves any
// bytes in the buffer.
pub fn load_all<R: Files + Env + Print + Eprint>(rt: &R, text: &mut [u8]) -> io::Result<usize>
    ensures within { ReadsAtMost result text.new }
    ensures kept { length text.new ≡ length text.old }
{
    let mut size = 0;
    for i in 1..usize::MAX {
        if !has_argument(rt, i) {
            break;
        }
        size += load(rt, i, &mut text[size..])?;
    }
    if size < text.len() {
        return Ok(size);
    }
    rt.write_all(b"the files of cases have over 2,097,152 bytes\n")?;
    Ok(0)
}
