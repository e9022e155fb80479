// The text of a value (01, "Text of a value"): a token byte and a payload into UTF-16LE text, written into a lent buffer
// or read unit by unit. What is to be written is found out first, as a plan; then the room is tested, then bytes are written.
#![tactic(auto)]

ghost use Rattle.std.specs.Prelude.{◌≡◌, ◌+◌, ◌*◌, ◌^◌, ◌≤◌, ◌<◌, length, take};
ghost use Rattle.numeral.specs.Numeral.{numeral, truth};
ghost use Rattle.chunks.specs.Chunks.{chunks_value, Chunked};
ghost use Rattle.hexadecimal.specs.Hexadecimal.{hex};
ghost use Rattle.base64_text.specs.Base64.{base64};
ghost use Rattle.plan.specs.Text.{shown};
ghost use Rattle.text.specs.Shows.{Shows, part_of};
ghost use Rattle.text.specs.Lays.{Lays, LaysEnd};
ghost use Rattle.token.specs.Tokens.{longest};

use chunks::Chunks;
use numeral::Small;
use plan::Plan;

// What showing a value answers, with the length of the text in bytes. Not a Result: `Shows` promises a number and a count of each
// case, and `part` answers for all four.
#[derive(Clone, Copy)]
pub enum Shown {
    // the payload is the text
    Own(usize),
    // the text stands at the front of the buffer
    Made(usize),
    // the buffer is too small, and was not written
    Short(usize),
    // the value has no text
    NoText,
}

// ---- a text into a lent buffer

// Lays the text of small into the buffer, if it has the room.
fn show_small(small: &Small, buffer: &mut [u8]) -> Shown
    ensures { LaysEnd small.now buffer.old buffer.new result }
{
    let need = small.text().len();
    if buffer.len() < need {
        return Shown::Short(need);
    }
    small.copy_to(buffer);
    Shown::Made(need)
}

// Shows a number.
fn show_number(minus: bool, size: Chunks, scale: usize, buffer: &mut [u8]) -> Shown
    requires { Chunked size × (scale ≤ 38) × (chunks_value size < 10 ^ 39) }
    ensures { Lays (numeral minus (chunks_value size) scale) buffer.old buffer.new result }
{
    let mut small = Small::new();
    numeral::render(minus, size, scale, &mut small);
    show_small(&small, buffer)
}

// Shows a truth value.
fn show_truth(yes: bool, buffer: &mut [u8]) -> Shown
    ensures { Lays (truth yes) buffer.old buffer.new result }
{
    let mut small = Small::new();
    numeral::render_truth(yes, &mut small);
    show_small(&small, buffer)
}

// Shows bytes in hexadecimal.
fn show_hex(p: &[u8], buffer: &mut [u8]) -> Shown
    requires { length p.now ≤ longest }
    ensures { Lays (hex p.now) buffer.old buffer.new result }
{
    let need = 4 * p.len();
    if buffer.len() < need {
        return Shown::Short(need);
    }
    hexadecimal::hex_into(p, buffer);
    Shown::Made(need)
}

// Shows bytes in Base64.
fn show_base64(p: &[u8], buffer: &mut [u8]) -> Shown
    requires { length p.now ≤ longest }
    ensures { Lays (base64 p.now) buffer.old buffer.new result }
{
    let size = (p.len() + 2) / 3 * 8;
    if buffer.len() < size {
        return Shown::Short(size);
    }
    base64_text::base64_into(p, buffer);
    Shown::Made(size)
}

// Shows the text of a token's payload: in the buffer, unless the payload itself is the text. A refusal writes nothing.
// It takes under 5 KB of the stack.
pub fn show(token: u8, payload: &[u8], buffer: &mut [u8]) -> Shown
    ensures { Shows token payload.now buffer.old buffer.new result }
{
    let table = token::table();
    match plan::plan_at(&table, token, payload) {
        Plan::Nothing => Shown::NoText,
        Plan::Payload => Shown::Own(payload.len()),
        Plan::Number { minus, size, scale } => show_number(minus, size, scale, buffer),
        Plan::Boolean(yes) => show_truth(yes, buffer),
        Plan::HexDigits => show_hex(payload, buffer),
        Plan::Base64Letters => show_base64(payload, buffer),
    }
}

// The first n elements, or all.
fn front<'a>(s: &'a [u8], n: usize) -> &'a [u8]
    ensures { result.now ≡ take n s.now }
{
    &s[..n.min(s.len())]
}

// After `show`: the text, as a part of the payload or of the buffer; an empty part where it was refused.
pub fn part<'a>(payload: &'a [u8], buffer: &'a [u8], shown: Shown) -> &'a [u8]
    ensures { result.now ≡ part_of payload.now buffer.now shown }
{
    match shown {
        Shown::Own(n) => front(payload, n),
        Shown::Made(n) => front(buffer, n),
        Shown::Short(_) | Shown::NoText => &payload[..0],
    }
}
