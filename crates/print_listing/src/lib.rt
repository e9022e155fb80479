// What the listing program prints, made at the end of one array from the last line to the first, so that it goes out in one
// write and no number is moved.
#![tactic(auto)]

ghost use Rattle.std.specs.Prelude.{◌≡◌, ◌++◌, ◌+◌, ◌*◌, ◌≤◌, length, take};
ghost use Rattle.print_lines.specs.Lines.{PutBefore};
ghost use Rattle.print_listing.specs.Printed.{pair_lines, printed, pair_rows, FullListed};
ghost use Rattle.token.specs.Tokens.{longest};
ghost use Rattle.print_listing.specs.Room.{pair_line, first_line, listing_size, pair_numbers};

use lister_contract::Answer;

// The bytes of the longest text that is printed.
pub const PRINTED: usize = 180280;

// The numbers of the list of pairs.
const LIST: usize = 16384;

// A line for each of the first `count` pairs of a list, at the end of the text.
fn put_pairs(text: &mut [u8], pairs: &[u32], count: usize) -> usize
    requires { (2 * count ≤ length pairs.now) × (first_line + pair_line * count ≤ length text.old) }
    ensures { PutBefore text.old text.new (length text.old) result (pair_lines (pair_rows count pairs.now)) × (first_line ≤ result) }
{
    let mut at = text.len();
    for k in (0..count).rev() {
        let earlier = slices::cell(pairs, 2 * k);
        let later = slices::cell(pairs, 2 * k + 1);
        at = print_lines::put_line(text, at, b"", earlier, b" ", later);
    }
    at
}

// Lists with tables at the full bounds.
fn list_full(doc: &[u8], pairs: &mut [u32]) -> Answer
    requires { length pairs.old ≡ pair_numbers }
    ensures { FullListed doc.now pairs.old pairs.new result }
{
    let mut names = [0u32; token::NAME_TABLE];
    let mut qnames = [0u32; token::QNAME_TABLE];
    let mut events = [0u32; token::EVENT_TABLE];
    lister::list(doc, &mut names, &mut qnames, &mut events, pairs)
}

// Lists a document and puts what the program prints at the end of `text`; gives the place where it begins. What stands before it stays. A line of a pair
// has at most 22 bytes, the first line at most 56.
pub fn print(doc: &[u8], text: &mut [u8]) -> usize
    requires { length text.old ≡ listing_size }
    ensures { (text.new ≡ take result text.old ++ printed doc.now) × (result ≤ listing_size) }
{
    let mut pairs = [0u32; LIST];
    let a = list_full(doc, &mut pairs);
    if a.number != 0 {
        return print_lines::put_line(
            text,
            PRINTED,
            b"refused ",
            a.number as usize,
            b" at ",
            a.place,
        );
    }
    let end = put_pairs(text, &pairs, a.pairs);
    print_lines::put_line(text, end, b"records ", a.records, b" pairs ", a.pairs)
}

// Zeros for the text that is printed. The `ensures` gives only their number, so that no proof computes with a list so long.
// Each printing crate has its own, as docs/PROOFS.md names them; one over a const parameter would stand beside them and be no shorter.
pub fn blank() -> [u8; PRINTED]
    ensures { length result ≡ listing_size }
{
    [0; PRINTED]
}
