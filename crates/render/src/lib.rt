// The meanings of all records as numbers, one after the other in one array, with the place where each begins and its hash. One
// walk over the rows of events.
#![tactic(auto)]

ghost use Rattle.std.specs.Prelude.{◌≡◌, ◌+◌, ◌-◌, ◌*◌, ◌≤◌, ◌<◌, length, get_or};
ghost use Rattle.sequences.specs.Lists.{part, units_of};
ghost use Rattle.base64_text.specs.Letters.{Alphabet};
ghost use Rattle.symbols.specs.Store.{PutHashed};
ghost use Rattle.render_elements.specs.Codes.{values_end, counted_by, value_by, unless_out, row_by, depth_by, attribute_by, room_by, RowFits};
ghost use Rattle.render_elements.specs.Effects.{RowPut, RowDone};
ghost use Rattle.render.specs.Render.{Renderable, Rendered, room_for};
ghost use Rattle.token.specs.Tokens.{ELEMENT_TOKEN, ENDELEMENT_TOKEN, event_width, event_rows};
ghost use Rattle.twins.specs.Search.{part_bounds};

use render_elements::Progress;
use symbols::Cursor;

// The tokens of values are below this, and no other token is.
const VALUES_END: usize = 0xA0;

// Codes of tokens (004, section 2), as the table of events has them: a cell is wider than a byte, so it is not matched as a u8.
const ELEMENT: usize = token::ELEMENT_TOKEN as usize;

const ENDELEMENT: usize = token::ENDELEMENT_TOKEN as usize;

const ATTRIBUTE: usize = token::ATTRIBUTE_TOKEN as usize;

const ENDATTRIBUTES: usize = token::ENDATTRIBUTES_TOKEN as usize;

const CDATA: usize = token::CDATA_TOKEN as usize;

const QNAME: usize = token::XSD_QNAME as usize;

// What every row is read from: Base64's alphabet, the document, and the marks of its qnames.
#[derive(Drop)]
struct Source<'a> {
    alphabet: &'a [u8; base64_text::LETTER_COUNT],
    doc: &'a [u8],
    marks: &'a [u32; token::QNAME_ROWS],
}

// A CDATA chunk of `units` units.
fn put_chunk(doc: &[u8], syms: &mut [u32], p: Progress, place: usize, units: usize) -> Progress
    requires { (place + 2 * units ≤ length doc.now) × (p.cursor.at + units ≤ length syms.old) }
    ensures { RowPut (unless_out p.depth (units_of (part doc.now place (2 * units)))) p.attribute p.depth syms.old p syms.new result }
{
    if p.depth == 0 {
        return p;
    }
    let end = place + 2 * units;
    render_elements::moved(p, symbols::put_units(&doc[place..end], syms, p.cursor))
}

// XSD-QNAME or another value; nothing for a byte that is no token, nor within a skipped attribute.
fn put_valued(
    source: &Source,
    syms: &mut [u32],
    i: Cursor,
    token: usize,
    a: usize,
    b: usize,
) -> Cursor
    requires { Alphabet source.now.alphabet.now × RowFits source.now.doc.now token a b × (token < values_end)
        × (i.at + room_by token b ≤ length syms.old) }
    ensures { PutHashed syms.old i (counted_by source.now.doc.now source.now.marks.now token a b) syms.new result }
{
    if token == QNAME {
        return symbols::put_one(
            syms,
            i,
            source.marks[a - 1] % marks::DECLARING + meaning::QNAME_KIND,
        );
    }
    if token == 0 {
        return i;
    }
    let end = a + b;
    symbols::put_payload(source.alphabet, token as u8, &source.doc[a..end], syms, i)
}

// A value, within a record and outside of a skipped attribute.
fn put_value(
    source: &Source,
    syms: &mut [u32],
    p: Progress,
    token: usize,
    a: usize,
    b: usize,
) -> Progress
    requires { Alphabet source.now.alphabet.now × RowFits source.now.doc.now token a b × (token < values_end)
        × (p.cursor.at + room_by token b ≤ length syms.old) }
    ensures { RowPut (unless_out p.depth (value_by source.now.doc.now source.now.marks.now p.attribute token a b)) p.attribute p.depth syms.old p syms.new result }
{
    if p.depth == 0 {
        return p;
    }
    if p.attribute == render_elements::SKIPPED_OPEN {
        return p;
    }
    render_elements::moved(p, put_valued(source, syms, p.cursor, token, a, b))
}

// Any row but ELEMENT's and ENDELEMENT's.
fn put_other(
    source: &Source,
    syms: &mut [u32],
    p: Progress,
    token: usize,
    a: usize,
    b: usize,
) -> Progress
    requires { Alphabet source.now.alphabet.now × RowFits source.now.doc.now token a b × (p.cursor.at + room_by token b ≤ length syms.old)
        × (token ≡ ELEMENT_TOKEN → ⊥) × (token ≡ ENDELEMENT_TOKEN → ⊥) }
    ensures { RowPut (row_by source.now.doc.now source.now.marks.now p.depth p.attribute token a b) (attribute_by source.now.marks.now p.attribute token a)
        (depth_by p.depth token) syms.old p syms.new result }
{
    if token < VALUES_END {
        return put_value(source, syms, p, token, a, b);
    }
    match token {
        ATTRIBUTE => render_elements::put_attribute(source.marks, syms, p, a),
        ENDATTRIBUTES => render_elements::end_attributes(syms, p),
        CDATA => put_chunk(source.doc, syms, p, a, b),
        _ => p,
    }
}

// Row k, of which the token and the first number were read.
fn put_row(
    source: &Source,
    events: &[u32],
    syms: &mut [u32],
    starts: &mut [usize; twins::BOUNDS],
    hashes: &mut [u64; twins::BOUNDS],
    p: Progress,
    k: usize,
    token: usize,
    a: usize,
) -> Progress
    requires { Alphabet source.now.alphabet.now × RowFits source.now.doc.now token a (get_or events.now (event_width * k + 3) 0)
        × (p.cursor.at + room_by token (get_or events.now (event_width * k + 3) 0) ≤ length syms.old) × (k < event_rows) × (event_width * k + event_width ≤ length events.now)
        × (p.records < part_bounds) × (p.depth ≤ event_rows) }
    ensures { RowDone source.now.doc.now source.now.marks.now token a (get_or events.now (event_width * k + 3) 0)
        syms.old starts.old hashes.old p syms.new starts.new hashes.new result }
{
    if token == ELEMENT {
        return render_elements::open(
            source.marks,
            syms,
            render_elements::begin(starts, hashes, p),
            a,
        );
    }
    if token == ENDELEMENT {
        return render_elements::close(syms, p);
    }
    let b = slices::cell(events, token::EVENT_WIDTH * k + 3);
    put_other(source, syms, p, token, a, b)
}

// The meanings of all records, one after the other, where each starts, and its hash; gives their number. The hash of record k
// stands at place k + 1: at place 0 stands that of no number.
pub fn render(
    doc: &[u8],
    names: &[u32],
    qnames: &[u32],
    events: &[u32],
    classes: &[u32; token::NAME_ROWS],
    rows: usize,
    qrows: usize,
    count: usize,
    syms: &mut [u32],
    starts: &mut [usize; twins::BOUNDS],
    hashes: &mut [u64; twins::BOUNDS],
) -> usize
    requires { Renderable doc.now names.now qnames.now events.now classes.now rows qrows count
        × (room_for (length doc.now) count ≤ length syms.old) }
    ensures { Rendered doc.now names.now qnames.now events.now rows qrows count
        syms.new starts.new hashes.new result }
{
    let alphabet = base64_text::alphabet();
    let mut marks = [1u32; token::QNAME_ROWS];
    marks::fill(doc, names, qnames, classes, rows, qrows, &mut marks);
    let source = Source {
        alphabet: &alphabet,
        doc,
        marks: &marks,
    };
    let mut p = Progress {
        cursor: Cursor {
            at: 0,
            hash: hash::SEED,
        },
        records: 0,
        depth: 0,
        attribute: render_elements::NONE_OPEN,
    };
    for k in 0..count {
        let token = slices::cell(events, token::EVENT_WIDTH * k);
        let a = slices::cell(events, token::EVENT_WIDTH * k + 2);
        p = put_row(&source, events, syms, starts, hashes, p, k, token, a);
    }
    let n = p.records;
    starts[n] = p.cursor.at;
    hashes[n] = p.cursor.hash;
    n
}
