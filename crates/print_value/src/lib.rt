// What the value program prints, made at the end of one array from the last byte to the first.
#![tactic(auto)]

ghost use Rattle.std.specs.Prelude.{◌≡◌, ◌++◌, ◌≤◌, length, take};
ghost use Rattle.text.specs.Shows.{part_of, text_answer};
ghost use Rattle.print_lines.specs.Lines.{PutBefore};
ghost use Rattle.print_value.specs.Printed.{text_lines, refusal, shown_lines, printed};
ghost use Rattle.token.specs.Tokens.{longest};
ghost use Rattle.print_value.specs.Room.{text_room, value_size};

use text::Shown;

// Four bytes for each byte of the longest payload, and 82 for a number.
const TEXT_ROOM: usize = 262226;

// The bytes of the longest text that is printed.
pub const PRINTED: usize = 524483;

// `accepted N`, and the bytes in hexadecimal.
fn put_text(out: &mut [u8], text: &[u8]) -> usize
    requires { (length out.old ≡ value_size) × (length text.now ≤ text_room) }
    ensures { PutBefore out.old out.new value_size result (text_lines text.now) }
{
    let last = print_lines::put_word(out, PRINTED, b"\n");
    let digits = print_lines::put_hex(out, last, text);
    let first = print_lines::put_word(out, digits, b"\n");
    print_lines::put_field(out, first, b"accepted ", text.len())
}

// `refused C at N`.
fn put_refusal(out: &mut [u8], number: u32, count: usize) -> usize
    requires { length out.old ≡ value_size }
    ensures { PutBefore out.old out.new value_size result (refusal number count) }
{
    print_lines::put_line(out, PRINTED, b"refused ", number as usize, b" at ", count)
}

// What `show` answered.
fn put_shown<'a>(out: &mut [u8], payload: &'a [u8], buffer: &'a [u8], shown: Shown) -> usize
    requires { (length out.old ≡ value_size) × (length (part_of payload.now buffer.now shown) ≤ text_room) }
    ensures { PutBefore out.old out.new value_size result (shown_lines (text_answer shown) (part_of payload.now buffer.now shown)) }
{
    match shown {
        Shown::Own(_) | Shown::Made(_) => put_text(out, text::part(payload, buffer, shown)),
        Shown::Short(n) => put_refusal(out, token::NO_ROOM, n),
        Shown::NoText => put_refusal(out, token::NO_TEXT, 0),
    }
}

// Shows the value of an input and puts what the program prints at the end of `out`; gives the place where it begins. What stands before it stays. A text has
// at most 82 bytes more than four for each byte of its payload, so the buffer holds every text.
pub fn print(input: &[u8], out: &mut [u8]) -> usize
    requires { length out.old ≡ value_size }
    ensures { (out.new ≡ take result out.old ++ printed input.now) × (result ≤ value_size) }
{
    let [token, payload @ ..] = input else {
        return put_refusal(out, token::NO_TEXT, 0);
    };
    let mut buffer = [0u8; TEXT_ROOM];
    let shown = text::show(*token, payload, &mut buffer);
    put_shown(out, payload, &buffer, shown)
}

// Zeros for the text that is printed. The `ensures` gives only their number, so that no proof computes with a list so long.
// Each printing crate has its own, as docs/PROOFS.md names them; one over a const parameter would stand beside them and be no shorter.
pub fn blank() -> [u8; PRINTED]
    ensures { length result ≡ value_size }
{
    [0; PRINTED]
}
