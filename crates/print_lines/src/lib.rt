// Lines of text in ASCII, made from the last byte to the first: a number's digits come in that order, so that none is moved.
#![tactic(auto)]

ghost use Rattle.std.specs.Prelude.{◌≡◌, ◌*◌, ◌≤◌, ◌<◌, length};
ghost use Rattle.numeral.specs.Numeral.{digits};
ghost use Rattle.hexadecimal.specs.Hexadecimal.{hex};
ghost use Rattle.print_lines.specs.Lines.{PutBefore, field, line};

// Each function takes the text and a place, not a struct of the two: README and docs/PROOFS.md name these functions.

// Puts a word before place `end`; gives the place where it begins.
pub fn put_word(text: &mut [u8], end: usize, word: &[u8]) -> usize
    requires { (length word.now ≤ end) × (end ≤ length text.old) }
    ensures { PutBefore text.old text.new end result word.now }
{
    let at = end - word.len();
    text[at..end].copy_from_slice(word);
    at
}

// Puts a number's decimal digits before place `end`; gives the place where they begin. The loop counts no index: it ends with the number.
pub fn put_decimal(text: &mut [u8], end: usize, n: usize) -> usize
    requires { (length (digits n) ≤ end) × (end ≤ length text.old) }
    ensures { PutBefore text.old text.new end result (digits n) }
{
    let mut at = end;
    let mut v = n;
    loop {
        at -= 1;
        text[at] = 48 + (v % 10) as u8;
        v = v / 10;
        if v == 0 {
            break;
        }
    }
    at
}

// Puts a word and then a number before place `end`; gives the place where the word begins.
pub fn put_field(text: &mut [u8], end: usize, word: &[u8], n: usize) -> usize
    requires { (length (field word.now n) ≤ end) × (end ≤ length text.old) }
    ensures { PutBefore text.old text.new end result (field word.now n) }
{
    let at = put_decimal(text, end, n);
    put_word(text, at, word)
}

// A line of two numbers, with a word before each.
pub fn put_line(
    text: &mut [u8],
    end: usize,
    first: &[u8],
    a: usize,
    second: &[u8],
    b: usize,
) -> usize
    requires { (length (line first.now a second.now b) ≤ end) × (end ≤ length text.old) }
    ensures { PutBefore text.old text.new end result (line first.now a second.now b) }
{
    let after = put_word(text, end, b"\n");
    let between = put_field(text, after, second, b);
    put_field(text, between, first, a)
}

// Puts two hexadecimal digits for each byte before place `end`; gives the place where they begin.
pub fn put_hex(text: &mut [u8], end: usize, bytes: &[u8]) -> usize
    requires { (2 * length bytes.now ≤ end) × (end ≤ length text.old) }
    ensures { PutBefore text.old text.new end result (hex bytes.now) }
{
    let mut at = end;
    for b in bytes.iter().rev() {
        at -= 1;
        text[at] = hexadecimal::hex_digit(b % 16);
        at -= 1;
        text[at] = hexadecimal::hex_digit(b / 16);
    }
    at
}
