// What the reading program prints: the answer, and a line for each row.
#![tactic(auto)]

ghost use Rattle.std.specs.Prelude.{◌≡◌, ◌++◌, ◌+◌, ◌≤◌, length, take};
ghost use Rattle.print_lines.specs.Lines.{PutBefore};
ghost use Rattle.print_reading.specs.Printed.{verdict, counts, answer_line, printed};
ghost use Rattle.token.specs.Tokens.{longest};
ghost use Rattle.print_rows.specs.Room.{answer_end, rows_end};

use machine::Answer;

// The bytes of the longest text that is printed.
pub const PRINTED: usize = print_rows::ROWS_END;

// ---- the first line

// `accepted N` or `refused C at N`.
fn put_verdict(text: &mut [u8], end: usize, a: Answer) -> usize
    requires { (42 ≤ end) × (end ≤ length text.old) }
    ensures { PutBefore text.old text.new end result (verdict a) }
{
    if a.number == 0 {
        return print_lines::put_field(text, end, b"accepted ", a.place);
    }
    let at = print_lines::put_field(text, end, b" at ", a.place);
    print_lines::put_field(text, at, b"refused ", a.number as usize)
}

// The row counts and the outer version.
fn put_counts(text: &mut [u8], end: usize, a: Answer) -> usize
    requires { (answer_end ≤ end) × (end ≤ length text.old) }
    ensures { PutBefore text.old text.new end result (counts a.names a.qnames a.events a.version) × (42 ≤ result) }
{
    let after = print_lines::put_word(text, end, b"\n");
    let before_version = print_lines::put_field(text, after, b" version ", a.version);
    let before_events = print_lines::put_field(text, before_version, b" events ", a.events);
    let before_qnames = print_lines::put_field(text, before_events, b" qnames ", a.qnames);
    print_lines::put_field(text, before_qnames, b" names ", a.names)
}

// ---- the whole text

// The first line, before place `end`.
pub fn put_answer(text: &mut [u8], end: usize, a: Answer) -> usize
    requires { (answer_end ≤ end) × (end ≤ length text.old) }
    ensures { PutBefore text.old text.new end result (answer_line a) }
{
    let at = put_counts(text, end, a);
    put_verdict(text, at, a)
}

// Reads a document into tables at the full bounds, and puts what the program prints at the end of `text`; gives the place
// where it begins. What stands before it stays. A line of a name has at most 27 bytes, of a qname 39, of an event 42, and the first line 155.
pub fn print(doc: &[u8], text: &mut [u8]) -> usize
    requires { length text.old ≡ rows_end }
    ensures { (text.new ≡ take result text.old ++ printed doc.now) × (result ≤ rows_end) }
{
    let mut names = [0u32; token::NAME_TABLE];
    let mut qnames = [0u32; token::QNAME_TABLE];
    let mut events = [0u32; token::EVENT_TABLE];
    let a = reader::read(doc, &mut names, &mut qnames, &mut events);
    let end = print_rows::put_rows(text, &names, &qnames, &events, a.names, a.qnames, a.events);
    put_answer(text, end, a)
}

// Zeros for the text that is printed. The `ensures` gives only their number, so that no proof computes with a list so long.
// Each printing crate has its own, as docs/PROOFS.md names them; one over a const parameter would stand beside them and be no shorter.
pub fn blank() -> [u8; PRINTED]
    ensures { length result ≡ rows_end }
{
    [0; PRINTED]
}
