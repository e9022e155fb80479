// What elements and attributes add to the numbers of a record, and where a record begins.
#![tactic(auto)]

ghost use Rattle.std.specs.Prelude.{◌≡◌, cond, [], ◌∷◌, ◌++◌, ◌+◌, ◌-◌, ◌≤◌, ◌<◌, leb, length};
ghost use Rattle.meaning.specs.Codes.{mark, attribute_kind, end_kind};
ghost use Rattle.symbols.specs.Store.{PutHashed};
ghost use Rattle.marks.specs.Marks.{opening_in, declared_in, declaring};
ghost use Rattle.render_elements.specs.Codes.{nothing_open, counted_open, skipped_open, close_by, unless_out};
ghost use Rattle.render_elements.specs.Effects.{moved_to, Begun, RowPut};
ghost use Rattle.token.specs.Tokens.{qname_rows, event_rows};
ghost use Rattle.twins.specs.Search.{part_bounds};

use symbols::Cursor;

// The open attribute: none, one that counts, one that does not.
pub const NONE_OPEN: usize = 0;

pub const COUNTED_OPEN: usize = 1;

pub const SKIPPED_OPEN: usize = 2;

// ---- rows

// What the walk knows: the place of the next number and the hash of the record's numbers so far; how many records have
// begun; how many elements are open; and the open attribute.
#[derive(Clone, Copy)]
pub struct Progress {
    pub cursor: Cursor,
    pub records: usize,
    pub depth: usize,
    // A number and not an enum: `put_attribute` and its like take any number, as they did. Above 2 none is open.
    pub attribute: usize,
}

// After numbers were written.
pub fn moved(p: Progress, cursor: Cursor) -> Progress
    ensures { result ≡ moved_to p cursor }
{
    Progress { cursor, ..p }
}

// Where no element is open a record begins: the place of its first number, and the hash of the record before it.
#[tactic(auto, using(crate::proofs::Rows::begun_deep, crate::proofs::Rows::begun_here))]
pub fn begin(
    starts: &mut [usize; twins::BOUNDS],
    hashes: &mut [u64; twins::BOUNDS],
    p: Progress,
) -> Progress
    requires { p.records < part_bounds }
    ensures { Begun starts.old hashes.old p starts.new hashes.new result }
{
    if p.depth != 0 {
        return p;
    }
    let n = p.records;
    starts[n] = p.cursor.at;
    hashes[n] = p.cursor.hash;
    Progress {
        cursor: Cursor {
            hash: hash::SEED,
            ..p.cursor
        },
        records: n + 1,
        ..p
    }
}

// ELEMENT.
pub fn open(marks: &[u32; token::QNAME_ROWS], syms: &mut [u32], p: Progress, row: usize) -> Progress
    requires { (1 ≤ row) × (row ≤ qname_rows) × (p.cursor.at < length syms.old) × (p.depth ≤ event_rows) }
    ensures { RowPut (opening_in marks.now row ∷ []) p.attribute (p.depth + 1) syms.old p syms.new result }
{
    let mark = marks[row - 1] % marks::DECLARING;
    let cursor = symbols::put_one(syms, p.cursor, mark);
    Progress {
        cursor,
        depth: p.depth + 1,
        ..p
    }
}

// ENDELEMENT.
pub fn close(syms: &mut [u32], p: Progress) -> Progress
    requires { p.cursor.at < length syms.old }
    ensures { RowPut (unless_out p.depth (mark end_kind 0 ∷ [])) p.attribute (p.depth - 1) syms.old p syms.new result }
{
    if p.depth == 0 {
        return p;
    }
    let cursor = symbols::put_one(syms, p.cursor, symbols::END_MARK);
    Progress {
        cursor,
        depth: p.depth - 1,
        ..p
    }
}

// An open attribute that counts is closed.
#[tactic(auto, using(crate::proofs::Rows::close_one, crate::proofs::Rows::close_none), unfolding(hash::specs::Hash::hash_from))]
fn put_close(syms: &mut [u32], i: Cursor, attribute: usize) -> Cursor
    requires { i.at < length syms.old }
    ensures { PutHashed syms.old i (close_by attribute) syms.new result }
{
    if attribute == COUNTED_OPEN {
        return symbols::put_one(syms, i, symbols::CLOSING_MARK);
    }
    i
}

// The attribute that a mark opens: one that declares a prefix does not count.
fn counts(mark: u32) -> usize
    ensures { result ≡ cond (leb declaring mark) skipped_open counted_open }
{
    if marks::DECLARING <= mark {
        SKIPPED_OPEN
    } else {
        COUNTED_OPEN
    }
}

// ATTRIBUTE: it closes the one before; one that declares a prefix has no mark.
pub fn put_attribute(
    marks: &[u32; token::QNAME_ROWS],
    syms: &mut [u32],
    p: Progress,
    row: usize,
) -> Progress
    requires { (1 ≤ row) × (row ≤ qname_rows) × (p.cursor.at + 1 < length syms.old) }
    ensures { RowPut (unless_out p.depth (close_by p.attribute ++ cond (declared_in marks.now row) [] ((opening_in marks.now row + attribute_kind) ∷ [])))
        (cond (declared_in marks.now row) skipped_open counted_open) p.depth syms.old p syms.new result }
{
    let mark = marks[row - 1];
    let next = Progress {
        attribute: counts(mark),
        ..p
    };
    if p.depth == 0 {
        return next;
    }
    let i = put_close(syms, p.cursor, p.attribute);
    if marks::DECLARING <= mark {
        return moved(next, i);
    }
    moved(
        next,
        symbols::put_one(syms, i, mark + meaning::ATTRIBUTE_KIND),
    )
}

// ENDATTRIBUTES.
pub fn end_attributes(syms: &mut [u32], p: Progress) -> Progress
    requires { p.cursor.at < length syms.old }
    ensures { RowPut (unless_out p.depth (close_by p.attribute)) nothing_open p.depth syms.old p syms.new result }
{
    let closed = Progress {
        attribute: NONE_OPEN,
        ..p
    };
    if p.depth == 0 {
        return closed;
    }
    moved(closed, put_close(syms, p.cursor, p.attribute))
}
