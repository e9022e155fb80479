// One row of events in the form: what it asks of the walk, its bytes, written or only counted, and what it defines.
#![tactic(auto)]

ghost use Rattle.std.specs.Prelude.{◌≡◌, ◌+◌, ◌*◌, ◌≤◌, ◌<◌, length, get_or, [], ◌∷◌, ◌++◌};
ghost use Rattle.token.specs.Entries.{Listed};
ghost use Rattle.machine.specs.Machine.{event};
ghost use Rattle.form_names.specs.Naming.{TextsInside};
ghost use Rattle.form_items.specs.Items.{item_by, item_of};
ghost use Rattle.form_items.specs.Walk.{nested_after, tables, tables_of, base_at, bytes_for, Ready, ItemFits, pi_bytes, Wrote, TextThere};
ghost use Rattle.form.specs.Canonical.{with_units, length_of, header_of};
ghost use Rattle.form_output.specs.Output.{Fits, Put, far_names, far_qnames, far_items};
ghost use Rattle.form_slots.specs.Slots.{Low, slots_after, Trail, Trails, Cleared, slot_count, region, low_names, low_items};
ghost use Rattle.sequences.specs.Lists.{part};
ghost use Rattle.token.specs.Tokens.{shape_of, NEST_TOKEN, event_width, longest, event_rows, nested_documents};

use form_names::Texts;
use form_slots::Defined;
use token::{Class, NameNumber, QnameNumber};
use value::Text;

// What the walk reads: the table of tokens, a document with its rows of names and of qnames, and the classes of these rows.
#[derive(Drop)]
pub struct Source<'a> {
    pub table: &'a [u16; 256],
    pub texts: Texts<'a>,
    pub qnames: &'a [u32],
    pub qrows: usize,
    pub classes: &'a [u32; token::NAME_ROWS],
    pub qclasses: &'a [u32; token::QNAME_ROWS],
}

// What row i of the events asks.
pub fn look(table: &[u16; 256], events: &[u32], i: usize) -> Item
    requires { Listed table.now × (i < event_rows) × (event_width * i + event_width ≤ length events.now) × (get_or events.now (event_width * i) 0 < 256) }
    ensures { result ≡ item_of (event (get_or events.now (event_width * i) 0) (get_or events.now (event_width * i + 1) 0)
        (get_or events.now (event_width * i + 2) 0) (get_or events.now (event_width * i + 3) 0)) }
{
    let code = slices::cell(events, token::EVENT_WIDTH * i);
    let a = slices::cell(events, token::EVENT_WIDTH * i + 2);
    let b = slices::cell(events, token::EVENT_WIDTH * i + 3);
    item_by(token::class_at(table, code as u8), code as u8, a, b)
}

// The item of a token's class. XSD-QNAME is told apart within its class: a guard would need a law over all classes.
fn item_by(class: Class, token: u8, a: usize, b: usize) -> Item
    ensures { result ≡ item_by class (event token 0 a b) }
{
    match class {
        Class::Unknown => Item::Byte(a),
        Class::Value => {
            if token == token::XSD_QNAME {
                Item::Refer { token, row: a }
            } else {
                Item::Valued {
                    token,
                    place: a,
                    size: b,
                }
            }
        }
        Class::LaterValue => Item::Valued {
            token,
            place: a,
            size: b,
        },
        Class::Element | Class::Attribute => Item::Refer { token, row: a },
        Class::Pi => Item::Pi { row: a, start: b },
        Class::Nest => Item::Nest(a),
        Class::EndNest => Item::Leave,
        Class::EndElement
        | Class::EndAttributes
        | Class::CdataEnd
        | Class::NameDef
        | Class::QnameDef
        | Class::Extension
        | Class::Flush => Item::Byte(token as usize),
        Class::XmlDecl
        | Class::Encoding
        | Class::DocType
        | Class::System
        | Class::Public
        | Class::Subset
        | Class::Comment
        | Class::Cdata => Item::Texted {
            token,
            place: a,
            units: b,
        },
    }
}

pub fn depth_after(item: Item, depth: usize) -> usize
    requires { (depth ≤ nested_documents) × (item ≡ Item.Leave → 1 ≤ depth) }
    ensures { result ≡ nested_after item depth }
{
    match item {
        Item::Byte(_) => depth,
        Item::Texted { .. } => depth,
        Item::Pi { .. } => depth,
        Item::Refer { .. } => depth,
        Item::Valued { .. } => depth,
        Item::Nest(_) => depth + 1,
        Item::Leave => depth - 1,
    }
}

// An event as the walk takes it.
#[derive(Clone, Copy)]
pub enum Item {
    // a byte alone: the standalone byte, ENDELEMENT, ENDATTRIBUTES, CDATAEND
    Byte(usize),
    Texted {
        token: u8,
        place: usize,
        units: usize,
    },
    // the row of its target, and the place of its text's length
    Pi {
        row: usize,
        start: usize,
    },
    // a reference to a row of qnames
    Refer {
        token: u8,
        row: usize,
    },
    Valued {
        token: u8,
        place: usize,
        size: usize,
    },
    Nest(usize),
    Leave,
}

// A place in the output, and how many documents are nested there.
#[derive(Clone, Copy)]
pub struct Spot {
    pub at: usize,
    pub depth: usize,
}

fn put_byte(out: &mut [u8], at: usize, byte: u8) -> usize
    requires { at ≤ far_names }
    ensures { Put out.old out.new at result (byte ∷ []) }
{
    form_output::put(out, at, byte);
    at + 1
}

fn put_texted(doc: &[u8], out: &mut [u8], at: usize, token: u8, place: usize, units: usize) -> usize
    requires { (place + 2 * units ≤ length doc.now) × (length doc.now ≤ longest) × (at ≤ far_names)
        × Fits (length out.old) at (length (token ∷ with_units (part doc.now place (2 * units)))) }
    ensures { Put out.old out.new at result (token ∷ with_units (part doc.now place (2 * units))) }
{
    form_output::put(out, at, token);
    form_bytes::put_text(doc, place, units, out, at + 1)
}

fn put_valued(
    source: &Source,
    out: &mut [u8],
    at: usize,
    token: u8,
    place: usize,
    size: usize,
) -> usize
    requires { let doc = source.now.texts.doc.now in Listed source.now.table.now × (place + size ≤ length doc) × (length doc ≤ longest) × (at ≤ far_names)
        × Fits (length out.old) at (length (token ∷ (length_of (shape_of token) (part doc place size) ++ part doc place size))) }
    ensures { let doc = source.now.texts.doc.now in Put out.old out.new at result
        (token ∷ (length_of (shape_of token) (part doc place size) ++ part doc place size)) }
{
    form_output::put(out, at, token);
    let shape = token::shape_at(source.table, token);
    form_bytes::put_value(source.texts.doc, shape, place, size, out, at + 1)
}

// A PI: its target's definition where it is needed, its target's number and its text.
fn put_pi(
    texts: &Texts,
    out: &mut [u8],
    at: usize,
    slots: &mut [u16; form_slots::SLOTS],
    base: usize,
    class: NameNumber,
    start: usize,
) -> usize
    requires { TextsInside texts.now × (class.0 ≤ texts.now.rows) × (base + region ≤ slot_count) × Low low_items slots.old × (at ≤ far_qnames)
        × TextThere texts.now.doc.now start
        × Fits (length out.old) at (length (pi_bytes (tables texts.now.doc.now texts.now.names.now [] [] []) slots.old base class.0 start)) }
    ensures { Put out.old out.new at result (pi_bytes (tables texts.now.doc.now texts.now.names.now [] [] []) slots.old base class.0 start)
        × (slots.new ≡ slots_after slots.old base class.0) }
{
    let p = form_names::define_name(texts, out, at, slots, base, class);
    form_output::put(out, p, token::PI_TOKEN);
    let x = form_names::put_name_number(out, p + 1, form_slots::name_number(slots, base, class));
    match value::text_at(texts.doc, start, token::MB32) {
        Ok(Text { place, units }) => form_bytes::put_text(texts.doc, place, units, out, x),
        Err(_) => x,
    }
}

// A nested document begins: its header, and nothing defined.
fn put_nest(out: &mut [u8], at: usize, defined: &mut Defined, base: usize, version: u8) -> usize
    requires { (at ≤ far_names) × (base + region ≤ slot_count) × Low low_names defined.old.names × Low low_names defined.old.qnames
        × Trail defined.old.names base × Trail defined.old.qnames base }
    ensures { Put out.old out.new at result (NEST_TOKEN ∷ header_of version)
        × Cleared defined.old.names defined.new.names base × Cleared defined.old.qnames defined.new.qnames base }
{
    form_slots::clear(&mut defined.names, base);
    form_slots::clear(&mut defined.qnames, base);
    form_output::put(out, at, token::NEST_TOKEN);
    form_bytes::put_header(out, at + 1, version)
}

// Writes an item, and keeps what it defines.
pub fn write(source: &Source, out: &mut [u8], defined: &mut Defined, w: Spot, item: Item) -> usize
    requires { Listed source.now.table.now × Ready (tables_of source.now) source.now.texts.rows source.now.qrows
        × ItemFits (tables_of source.now) source.now.texts.rows source.now.qrows w.depth item
        × Low low_items defined.old.names × Low low_items defined.old.qnames × (w.depth ≤ nested_documents) × (w.at ≤ far_items)
        × Fits (length out.old) w.at (length (bytes_for (tables_of source.now) defined.old.names defined.old.qnames (base_at w.depth) item))
        × Trails defined.old.names × Trails defined.old.qnames }
    ensures { Wrote (tables_of source.now)
        defined.old.names defined.old.qnames out.old defined.new.names defined.new.qnames out.new w item result }
{
    let at = w.at;
    let base = form_slots::REGION * w.depth;
    let texts = &source.texts;
    match item {
        Item::Byte(value) => put_byte(out, at, value as u8),
        Item::Texted {
            token,
            place,
            units,
        } => put_texted(texts.doc, out, at, token, place, units),
        Item::Pi { row, start } => {
            let class = NameNumber(classes::class_at(source.classes, row) as usize);
            put_pi(texts, out, at, &mut defined.names, base, class, start)
        }
        Item::Refer { token, row } => {
            let q = form_slots::parts_at(source.qnames, source.classes, row - 1);
            let class = QnameNumber(classes::class_at(source.qclasses, row) as usize);
            form_names::refer(texts, out, at, defined, base, token, q, class)
        }
        Item::Valued { token, place, size } => put_valued(source, out, at, token, place, size),
        Item::Nest(version) => {
            put_nest(out, at, defined, base + form_slots::REGION, version as u8)
        }
        Item::Leave => put_byte(out, at, token::ENDNEST_TOKEN),
    }
}
