// Standard input and output of the programs. What cannot be read or written is said on standard error: half a document
// must not be taken for a whole one, nor half a list for the list.
#![tactic(auto)]

ghost use Rattle.std.specs.Prelude.{◌≡◌, ◌<◌, ◌≤◌, length, take, IfOk};
ghost use Rattle.std.specs.Io.{ReadsAtMost};
ghost use Rattle.std.specs.Io.KnownBytes.{Consumes, IsAtEnd};

use std::io::{Read, Write};
use std::{io, str};

// The bytes of an error's text.
const WORDS: usize = 256;

// Reads until the buffer is full or the reader has no more; how many bytes stand at the buffer's front. A read that fails ends
// it with the error, so that it is not taken for the end. An error leaves any bytes in the buffer.
pub fn read_full<R: Read>(reader: &mut R, buffer: &mut [u8]) -> io::Result<usize>
    ensures within { ReadsAtMost result buffer.new }
    ensures kept { length buffer.new ≡ length buffer.old }
    ensures bytes { IfOk result (λ n. Consumes (R.remaining reader.old) (R.remaining reader.new) (take n buffer.new)) }
    ensures end { IfOk result (λ n. n < length buffer.new → IsAtEnd (R.remaining reader.new)) }
{
    let mut size = 0;
    while size < buffer.len() {
        match reader.read(&mut buffer[size..]) {
            Ok(0) => return Ok(size),
            Ok(count) => size += count,
            Err(e) => return Err(e),
        }
    }
    Ok(size)
}

// Writes an error's text to the front of a buffer; how many bytes it has there.
fn put_words(error: &io::Error, text: &mut [u8]) -> usize
    ensures { result ≤ length text.new }
{
    let room = text.len();
    let mut rest = &mut text[..];
    let _ = write!(rest, "{error}");
    room.saturating_sub(rest.len())
}

// Says on standard error what failed, with the system's words for it and not their number, and gives the error back.
pub fn failed(rt: &impl Eprint, what: &str, error: io::Error) -> io::Error
    ensures { result ≡ error }
{
    let mut text = [0u8; WORDS];
    let size = put_words(&error, &mut text);
    let shown = str::from_utf8(&text[..size]).unwrap_or("");
    let words = shown.split(" (os error ").next().unwrap_or(shown);
    let _ = eprintln!(rt; "{what}: {words}");
    error
}

// Reads standard input, which `reader` is, to its end, or until the buffer is full; how many bytes stand at the buffer's front. A read
// that fails is said. An error leaves any bytes in the buffer.
pub fn input_whole<R: Read>(rt: &impl Eprint, reader: &mut R, input: &mut [u8]) -> io::Result<usize>
    ensures within { ReadsAtMost result input.new }
    ensures kept { length input.new ≡ length input.old }
    ensures bytes { IfOk result (λ n. Consumes (R.remaining reader.old) (R.remaining reader.new) (take n input.new)) }
    ensures end { IfOk result (λ n. n < length input.new → IsAtEnd (R.remaining reader.new)) }
{
    read_full(reader, input).map_err(|e| failed(rt, "standard input", e))
}

// Writes a text to standard output. After an error a part of it may be written.
pub fn write_output(rt: &(impl Print + Eprint), text: &[u8]) -> io::Result<()> {
    rt.write_all(text)
        .map_err(|e| failed(rt, "standard output", e))
}
