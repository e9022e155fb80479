// Names and qnames of the form: defined where they are first needed in their document, and numbered there.
#![tactic(auto)]

ghost use Rattle.std.specs.Prelude.{◌≡◌, ◌∷◌, ◌++◌, ◌+◌, ◌*◌, ◌≤◌, length};
ghost use Rattle.number.specs.Number.{shortest};
ghost use Rattle.form_output.specs.Output.{Fits, Put, far_bytes, far_names, far_qnames};
ghost use Rattle.form_slots.specs.Slots.{slots_after, number_in, Low, PartsFit, slot_count, region, low_names, low_qnames};
ghost use Rattle.form_names.specs.Naming.{TextsInside, bytes_before, slots3, texts_before, qname_numbers, qname_before, names_after};
ghost use Rattle.token.specs.Tokens.{name_rows, qname_rows, largest};

use form_slots::{Defined, Parts};
use token::{NameNumber, QnameNumber};

// A document with the rows of names that it was read into, and how many they are.
#[derive(Drop)]
pub struct Texts<'a> {
    pub doc: &'a [u8],
    pub names: &'a [u32],
    pub rows: usize,
}

// A number as it is written: that of a name where a name is referred to, and that of a qname where a qname is. Two functions, so
// that neither takes the other's number.
pub fn put_name_number(out: &mut [u8], at: usize, number: NameNumber) -> usize
    requires { (number.0 ≤ largest) × (at ≤ far_bytes) }
    ensures { Put out.old out.new at result (shortest number.0) }
{
    form_output::put_number(out, at, number.0)
}

fn put_qname_number(out: &mut [u8], at: usize, number: QnameNumber) -> usize
    requires { (number.0 ≤ largest) × (at ≤ far_bytes) }
    ensures { Put out.old out.new at result (shortest number.0) }
{
    form_output::put_number(out, at, number.0)
}

// Defines the text of a class, unless it is empty or defined; gives the place after it.
pub fn define_name(
    texts: &Texts,
    out: &mut [u8],
    at: usize,
    slots: &mut [u16; form_slots::SLOTS],
    base: usize,
    class: NameNumber,
) -> usize
    requires { TextsInside texts.now × (class.0 ≤ texts.now.rows) × (base + region ≤ slot_count) × Low low_names slots.old × (at ≤ far_names)
        × Fits (length out.old) at (length (bytes_before texts.now.doc.now texts.now.names.now slots.old base class.0)) }
    ensures { Put out.old out.new at result (bytes_before texts.now.doc.now texts.now.names.now slots.old base class.0)
        × (slots.new ≡ slots_after slots.old base class.0) }
{
    if class.0 == 0 || slots[base + class.0] != 0 {
        return at;
    }
    form_output::put(out, at, token::NAMEDEF_TOKEN);
    let k = class.0 - 1;
    form_slots::mark_name(slots, base, class);
    form_bytes::put_text(
        texts.doc,
        slices::cell(texts.names, token::NAME_WIDTH * k),
        slices::cell(texts.names, token::NAME_WIDTH * k + 1),
        out,
        at + 1,
    )
}

// Defines the texts of a qname.
fn define_texts(
    texts: &Texts,
    out: &mut [u8],
    at: usize,
    slots: &mut [u16; form_slots::SLOTS],
    base: usize,
    q: Parts,
) -> usize
    requires { TextsInside texts.now × PartsFit texts.now.rows q × (base + region ≤ slot_count) × Low low_qnames slots.old × (at ≤ far_qnames)
        × Fits (length out.old) at (length (texts_before texts.now.doc.now texts.now.names.now slots.old base q)) }
    ensures { Put out.old out.new at result (texts_before texts.now.doc.now texts.now.names.now slots.old base q)
        × (slots.new ≡ slots3 slots.old base q) }
{
    let x = define_name(texts, out, at, slots, base, q.uri);
    let y = define_name(texts, out, x, slots, base, q.prefix);
    define_name(texts, out, y, slots, base, q.local)
}

// The definition of a qname, by the numbers of its texts.
fn put_qname(
    out: &mut [u8],
    at: usize,
    slots: &[u16; form_slots::SLOTS],
    base: usize,
    q: Parts,
) -> usize
    requires { PartsFit name_rows q × (base + region ≤ slot_count) × Low low_names slots.now × (at ≤ far_names) }
    ensures { Put out.old out.new at result (qname_numbers slots.now base q) }
{
    form_output::put(out, at, token::QNAMEDEF_TOKEN);
    let x = put_name_number(out, at + 1, form_slots::name_number(slots, base, q.uri));
    let y = put_name_number(out, x, form_slots::name_number(slots, base, q.prefix));
    put_name_number(out, y, form_slots::name_number(slots, base, q.local))
}

// Defines a qname with its texts, unless it is defined.
fn define_qname(
    texts: &Texts,
    out: &mut [u8],
    at: usize,
    defined: &mut Defined,
    base: usize,
    q: Parts,
    class: QnameNumber,
) -> usize
    requires { TextsInside texts.now × PartsFit texts.now.rows q × (1 ≤ class.0) × (class.0 ≤ qname_rows) × (base + region ≤ slot_count) × Low low_qnames defined.old.names
        × Low low_qnames defined.old.qnames × (at ≤ far_qnames)
        × Fits (length out.old) at (length (qname_before texts.now.doc.now texts.now.names.now defined.old.names defined.old.qnames base q class.0)) }
    ensures { Put out.old out.new at result (qname_before texts.now.doc.now texts.now.names.now defined.old.names defined.old.qnames base q class.0)
        × (defined.new.names ≡ names_after defined.old.names defined.old.qnames base q class.0)
        × (defined.new.qnames ≡ slots_after defined.old.qnames base class.0) }
{
    if defined.qnames[base + class.0] != 0 {
        return at;
    }
    let p = define_texts(texts, out, at, &mut defined.names, base, q);
    form_slots::mark_qname(&mut defined.qnames, base, class);
    put_qname(out, p, &defined.names, base, q)
}

// An ELEMENT, an ATTRIBUTE or an XSD-QNAME with the qname that it refers to.
pub fn refer(
    texts: &Texts,
    out: &mut [u8],
    at: usize,
    defined: &mut Defined,
    base: usize,
    token: u8,
    q: Parts,
    class: QnameNumber,
) -> usize
    requires { TextsInside texts.now × PartsFit texts.now.rows q × (1 ≤ class.0) × (class.0 ≤ qname_rows) × (base + region ≤ slot_count) × Low low_qnames defined.old.names
        × Low low_qnames defined.old.qnames × (at ≤ far_qnames)
        × Fits (length out.old) at (length (qname_before texts.now.doc.now texts.now.names.now defined.old.names defined.old.qnames base q class.0)) }
    ensures { Put out.old out.new at result (qname_before texts.now.doc.now texts.now.names.now defined.old.names defined.old.qnames base q class.0
        ++ (token ∷ shortest (number_in (slots_after defined.old.qnames base class.0) base class.0)))
        × (defined.new.names ≡ names_after defined.old.names defined.old.qnames base q class.0)
        × (defined.new.qnames ≡ slots_after defined.old.qnames base class.0) }
{
    let p = define_qname(texts, out, at, defined, base, q, class);
    form_output::put(out, p, token);
    let number = form_slots::qname_number(&defined.qnames, base, class);
    put_qname_number(out, p + 1, number)
}
