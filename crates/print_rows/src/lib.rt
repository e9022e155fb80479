// The lines of the three tables, as the reading program prints them: made from the last byte to the first.
#![tactic(auto)]

ghost use Rattle.std.specs.Prelude.{◌≡◌, [], ◌++◌, ◌+◌, ◌*◌, ◌≤◌, ◌<◌, length};
ghost use Rattle.sequences.specs.Lists.{part};
ghost use Rattle.machine.specs.Tables.{name_rows_in, qname_rows_in, event_rows_in};
ghost use Rattle.print_lines.specs.Lines.{PutBefore};
ghost use Rattle.print_rows.specs.Rows.{row_line, token_digits, event_word, event_lines, row_lines};
ghost use Rattle.print_rows.specs.Table.{table_lines, line_room};
ghost use Rattle.token.specs.Tokens.{name_width, qname_width, event_width, name_rows, qname_rows, event_rows};
ghost use Rattle.print_rows.specs.Room.{answer_end, qnames_end, rows_end, event_line};

// The bytes of the longest text that is printed, and so the place after the lines.
pub const ROWS_END: usize = 239771;

// ---- rows

// A line feed, and before it a space and a number for each of `count` numbers of a table, three at most.
fn put_numbers(text: &mut [u8], end: usize, table: &[u32], from: usize, count: usize) -> usize
    requires { (from + count ≤ length table.now) × (from ≤ event_width * event_rows) × (count ≤ 3) × (1 + 11 * count ≤ end) × (end ≤ length text.old) }
    ensures { PutBefore text.old text.new end result (row_line [] (part table.now from count)) × (end ≤ result + (1 + 11 * count)) }
{
    let mut at = print_lines::put_word(text, end, b"\n");
    for k in (0..count).rev() {
        at = print_lines::put_field(text, at, b" ", slices::cell(table, from + k));
    }
    at
}

// A line with a word for each of the first `rows` rows of a table, each row of `width` numbers, three at most.
fn put_lines(
    text: &mut [u8],
    end: usize,
    word: &[u8],
    table: &[u32],
    rows: usize,
    width: usize,
) -> usize
    requires { (width ≤ 3) × (rows ≤ qname_rows) × (width * rows ≤ length table.now) × (line_room word.now width * rows ≤ end) × (end ≤ length text.old) }
    ensures { PutBefore text.old text.new end result (table_lines word.now width rows table.now)
        × (end ≤ result + line_room word.now width * rows) }
{
    let mut at = end;
    for k in (0..rows).rev() {
        at = put_numbers(text, at, table, width * k, width);
        at = print_lines::put_word(text, at, word);
    }
    at
}

// `event TT`.
fn put_token(text: &mut [u8], end: usize, token: usize) -> usize
    requires { (8 ≤ end) × (end ≤ length text.old) }
    ensures { PutBefore text.old text.new end result (event_word ++ token_digits token) × (end ≤ result + 8) }
{
    let byte = [(token % 256) as u8];
    let at = print_lines::put_hex(text, end, &byte);
    print_lines::put_word(text, at, b"event ")
}

// A line for each of the first `rows` rows of a table of events.
fn put_events(text: &mut [u8], end: usize, events: &[u32], rows: usize) -> usize
    requires { (event_width * rows ≤ length events.now) × (rows ≤ event_rows) × (qnames_end + event_line * rows ≤ end) × (end ≤ length text.old) }
    ensures { PutBefore text.old text.new end result (event_lines (event_rows_in rows events.now)) × (qnames_end ≤ result) }
{
    let mut at = end;
    for k in (0..rows).rev() {
        at = put_numbers(text, at, events, token::EVENT_WIDTH * k + 1, 3);
        at = put_token(text, at, slices::cell(events, token::EVENT_WIDTH * k));
    }
    at
}

// A line for each row of the three tables, at the end of `text`, with room left for the first line.
pub fn put_rows(
    text: &mut [u8],
    names: &[u32],
    qnames: &[u32],
    events: &[u32],
    n: usize,
    q: usize,
    e: usize,
) -> usize
    requires { (length text.old ≡ rows_end) × (n ≤ name_rows) × (q ≤ qname_rows) × (e ≤ event_rows)
        × (name_width * n ≤ length names.now) × (qname_width * q ≤ length qnames.now) × (event_width * e ≤ length events.now) }
    ensures { PutBefore text.old text.new rows_end result
        (row_lines (name_rows_in n names.now) (qname_rows_in q qnames.now) (event_rows_in e events.now)) × (answer_end ≤ result) }
{
    let before_events = put_events(text, ROWS_END, events, e);
    let before_qnames = put_lines(text, before_events, b"qname", qnames, q, token::QNAME_WIDTH);
    put_lines(text, before_qnames, b"name", names, n, token::NAME_WIDTH)
}
