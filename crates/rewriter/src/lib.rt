// Rewriting: a document into its canonical form, for any document, tables and output (01, "The four jobs"). One walk over the
// rows of events, run twice: over no output it measures the form, then it writes it.
#![tactic(auto)]

ghost use Rattle.std.specs.Prelude.{◌≡◌, ◌+◌, ◌*◌, ◌≤◌, ◌<◌, length, get_or};
ghost use Rattle.token.specs.Entries.{Listed};
ghost use Rattle.token.specs.Tokens.{event_width, event_rows, nested_documents};
ghost use Rattle.machine.specs.Machine.{reading, room_in};
ghost use Rattle.rewriter.specs.Forms.{form_in};
ghost use Rattle.form_output.specs.Output.{Fits, Put, far_items};
ghost use Rattle.form_slots.specs.Slots.{Low, Trails, low_items};
ghost use Rattle.form_items.specs.Walk.{tables_of, base_at, bytes_for, item_at, Either, Turned, Ready, ItemFits, Prepared};
ghost use Rattle.rewriter_contract.specs.Contract.{answer, FormWritten, Rewrites};

use form_items::{Source, Spot};
use form_names::Texts;
use form_slots::Defined;
use rewriter_contract::Answer;

// One row of events.
fn turn(
    source: &Source,
    events: &[u32],
    out: &mut [u8],
    defined: &mut Defined,
    i: usize,
    w: Spot,
) -> Spot
    requires { Listed source.now.table.now × (i < event_rows) × (event_width * i + event_width ≤ length events.now) × (get_or events.now (event_width * i) 0 < 256)
        × Ready (tables_of source.now) source.now.texts.rows source.now.qrows
        × ItemFits (tables_of source.now) source.now.texts.rows source.now.qrows w.depth (item_at events.now i)
        × Low low_items defined.old.names × Low low_items defined.old.qnames × (w.depth ≤ nested_documents) × (w.at ≤ far_items)
        × Fits (length out.old) w.at (length (bytes_for (tables_of source.now) defined.old.names defined.old.qnames (base_at w.depth) (item_at events.now i)))
        × Trails defined.old.names × Trails defined.old.qnames }
    ensures { Turned (tables_of source.now)
        defined.old.names defined.old.qnames out.old defined.new.names defined.new.qnames out.new w (item_at events.now i) result }
{
    let item = form_items::look(source.table, events, i);
    let depth = form_items::depth_after(item, w.depth);
    let at = form_items::write(source, out, defined, w, item);
    Spot { at, depth }
}

// Writes the form of the rows, or only measures it over an output of at most one byte; gives its length.
fn walk(source: &Source, events: &[u32], count: usize, version: usize, out: &mut [u8]) -> usize
    requires { Listed source.now.table.now × Prepared (tables_of source.now) events.now source.now.texts.rows source.now.qrows count
        × (version ≤ 2) × Either (length out.old) (length (form_in source.now events.now count version)) }
    ensures { Put out.old out.new 0 result (form_in source.now events.now count version) }
{
    let mut defined = Defined {
        names: [0u16; form_slots::SLOTS],
        qnames: [0u16; form_slots::SLOTS],
    };
    let at = form_bytes::put_header(out, 0, version as u8);
    let mut w = Spot { at, depth: 0 };
    for i in 0..count {
        w = turn(source, events, out, &mut defined, i, w);
    }
    w.at
}

// A refusal: nothing was written.
fn refused(number: u32, place: usize) -> Answer
    ensures { result ≡ answer number place 0 }
{
    Answer {
        number,
        place,
        length: 0,
    }
}

// Measures the form of an accepted document, and writes it where it is not too long and the output has the room.
#[tactic(auto, using(rewriter_contract::proofs::Forms::form_long, rewriter_contract::proofs::Forms::room_small))]
fn write_form(source: &Source, events: &[u32], out: &mut [u8], read: machine::Answer) -> Answer
    requires { Listed source.now.table.now × Prepared (tables_of source.now) events.now source.now.texts.rows source.now.qrows read.events
        × (read.version ≤ 2) }
    ensures { FormWritten (form_in source.now events.now read.events read.version) read.place out.old out.new result }
{
    let mut none = [0u8; 1];
    let size = walk(source, events, read.events, read.version, &mut none);
    if token::LONGEST < size {
        return refused(token::FORM_TOO_LONG, size);
    }
    if out.len() < size {
        return refused(token::NO_ROOM, size);
    }
    walk(source, events, read.events, read.version, out);
    Answer {
        number: token::ACCEPTED,
        place: read.place,
        length: size,
    }
}

// Rewrites a document: fills the three tables as reading does, then the output with the canonical form. The local arrays of this
// and of the walk take about 100 KB of the stack.
pub fn rewrite(
    doc: &[u8],
    names: &mut [u32],
    qnames: &mut [u32],
    events: &mut [u32],
    out: &mut [u8],
) -> Answer
    ensures { Rewrites doc.now (reading doc.now (room_in (length names.old) (length qnames.old) (length events.old)))
        names.old qnames.old events.old out.old
        names.new qnames.new events.new out.new result }
{
    let read = reader::read(doc, names, qnames, events);
    if read.number != 0 {
        return refused(read.number, read.place);
    }
    let table = token::table();
    let mut classes = [0u32; token::NAME_ROWS];
    let mut qclasses = [0u32; token::QNAME_ROWS];
    name_classes::name_classes(doc, names, read.names, &mut classes);
    qname_classes::qname_classes(
        doc,
        names,
        read.names,
        qnames,
        read.qnames,
        &classes,
        &mut qclasses,
    );
    let source = Source {
        table: &table,
        texts: Texts {
            doc,
            names,
            rows: read.names,
        },
        qnames,
        qrows: read.qnames,
        classes: &classes,
        qclasses: &qclasses,
    };
    write_form(&source, events, out, read)
}
