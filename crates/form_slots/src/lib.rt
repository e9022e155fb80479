// What a document of the form has defined: for each open document the number of each class, or 0.
#![tactic(auto)]

ghost use Rattle.std.specs.Prelude.{◌≡◌, ◌+◌, ◌*◌, ◌≤◌, ◌<◌, length, get_or};
ghost use Rattle.form_slots.specs.Slots.{marked, number_in, parts_at, Low, Trail, Cleared, slot_count, region, low_names};
ghost use Rattle.token.specs.Tokens.{qname_width, name_rows, qname_rows};

use token::{NameNumber, QnameNumber};

// How many classes are defined, and the number of each.
pub const CLASSES: usize = token::NAME_ROWS + 1;

// The numbers of one document, and its trail: the class defined last, and behind it for each class the one defined before it.
pub const REGION: usize = 2 * CLASSES;

// A region for the outer document and for each nested one. One array and no array of structs: `marked`, `number_in` and `Trail`
// (specs/Slots.antt) are about one list.
pub const SLOTS: usize = REGION * (token::NESTED_DOCUMENTS + 1);

// What the open documents have defined: names, and qnames.
#[derive(Drop)]
pub struct Defined {
    pub names: [u16; SLOTS],
    pub qnames: [u16; SLOTS],
}

// The classes of a qname's URI, prefix and local name.
#[derive(Clone, Copy)]
pub struct Parts {
    pub uri: NameNumber,
    pub prefix: NameNumber,
    pub local: NameNumber,
}

// The classes of the names of qname row k, counted from 0.
pub fn parts_at(qnames: &[u32], classes: &[u32; token::NAME_ROWS], k: usize) -> Parts
    requires { (k < qname_rows) × (qname_width * k + qname_width ≤ length qnames.now) × (get_or qnames.now (qname_width * k) 0 ≤ name_rows)
        × (get_or qnames.now (qname_width * k + 1) 0 ≤ name_rows) × (get_or qnames.now (qname_width * k + 2) 0 ≤ name_rows) }
    ensures { result ≡ parts_at qnames.now classes.now k }
{
    let uri = classes::class_at(classes, slices::cell(qnames, token::QNAME_WIDTH * k));
    let prefix = classes::class_at(classes, slices::cell(qnames, token::QNAME_WIDTH * k + 1));
    let local = classes::class_at(classes, slices::cell(qnames, token::QNAME_WIDTH * k + 2));
    Parts {
        uri: NameNumber(uri as usize),
        prefix: NameNumber(prefix as usize),
        local: NameNumber(local as usize),
    }
}

// The number of a class in the document whose region begins at `base`; 0 where it is not defined. Only the class of a name gives a
// name's number, and only that of a qname a qname's: so this is two functions, and not one for any class.
pub fn name_number(slots: &[u16; SLOTS], base: usize, class: NameNumber) -> NameNumber
    requires { (base + class.0 < slot_count) × Low low_names slots.now }
    ensures { result.0 ≡ number_in slots.now base class.0 }
{
    if class.0 == 0 {
        return NameNumber(0);
    }
    NameNumber(slots[base + class.0] as usize)
}

pub fn qname_number(qslots: &[u16; SLOTS], base: usize, class: QnameNumber) -> QnameNumber
    requires { (1 ≤ class.0) × (base + class.0 < slot_count) × Low low_names qslots.now }
    ensures { result.0 ≡ number_in qslots.now base class.0 }
{
    QnameNumber(qslots[base + class.0] as usize)
}

// Gives a class the next number, and puts it on the trail.
fn mark(slots: &mut [u16; SLOTS], base: usize, class: usize)
    requires { (class ≤ name_rows) × (base + region ≤ slot_count) × Low low_names slots.old }
    ensures { slots.new ≡ marked slots.old base class }
{
    let count = slots[base] + 1;
    let last = slots[base + CLASSES];
    slots[base] = count;
    slots[base + class] = count;
    slots[base + CLASSES] = class as u16;
    slots[base + CLASSES + class] = last;
}

pub fn mark_name(slots: &mut [u16; SLOTS], base: usize, class: NameNumber)
    requires { (class.0 ≤ name_rows) × (base + region ≤ slot_count) × Low low_names slots.old }
    ensures { slots.new ≡ marked slots.old base class.0 }
{
    mark(slots, base, class.0);
}

pub fn mark_qname(qslots: &mut [u16; SLOTS], base: usize, class: QnameNumber)
    requires { (class.0 ≤ qname_rows) × (base + region ≤ slot_count) × Low low_names qslots.old }
    ensures { qslots.new ≡ marked qslots.old base class.0 }
{
    mark(qslots, base, class.0);
}

// A nested document begins with nothing defined: follows the trail, so that only what was defined costs work.
pub fn clear(slots: &mut [u16; SLOTS], base: usize)
    requires { (base + region ≤ slot_count) × Low low_names slots.old × Trail slots.old base }
    ensures { Cleared slots.old slots.new base }
{
    let count = slots[base];
    let mut class = slots[base + CLASSES] as usize;
    for _i in 0..count {
        slots[base + class] = 0;
        class = slots[base + CLASSES + class] as usize;
    }
    slots[base] = 0;
}
