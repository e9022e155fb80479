// A token's payload: where it lies in the document, where the next token starts, and the value rules
// (01, "Document rules"; 004, sections 2.3 and 2.4).
#![tactic(auto)]

ghost use Rattle.std.specs.Prelude.{◌≡◌, ◌+◌, ◌≤◌, ◌<◌, length};
ghost use Rattle.token.specs.Tokens.{mb32};
ghost use Rattle.number.specs.Number.{number_at};
ghost use Rattle.value.specs.Fields.{needed, text_at, text_payload, blob_after, decimal_after, time_field, qname_payload, extent_at, field_at};
ghost use Rattle.value.specs.Bounds.{Lies, Inside};

use number::Number;
use token::{Fault, QnameNumber, Refusal, Shape};

#[derive(Clone, Copy)]
pub enum Field {
    // the payload; the next token starts after it
    Payload { place: usize, size: usize },
    // the number of a qname, and where the next token starts
    Reference { number: QnameNumber, next: usize },
}

// The units of a text: where they lie, and how many.
#[derive(Clone, Copy)]
pub struct Text {
    pub place: usize,
    pub units: usize,
}

// ---- where a payload lies

// Nothing is added to a place before it is tested: a length may be far over the document's.
fn needed_at(doc: &[u8], place: usize, size: usize) -> Result<Field, Refusal>
    requires { place ≤ length doc.now }
    ensures { result ≡ needed doc.now place size }
{
    if size <= doc.len() - place {
        Ok(Field::Payload { place, size })
    } else {
        Err(Refusal {
            fault: Fault::Missing,
            place: doc.len(),
        })
    }
}

// The text whose length stands at a place, in a number of at most `most` bytes.
pub fn text_at(doc: &[u8], at: usize, most: usize) -> Result<Text, Refusal>
    ensures { (result ≡ text_at most doc.now at) × Lies (length doc.now) at result }
{
    let Number { value, next } = number::read(doc, at, most)?;
    if value <= (doc.len() - next) / 2 {
        Ok(Text {
            place: next,
            units: value,
        })
    } else {
        Err(Refusal {
            fault: Fault::Missing,
            place: doc.len(),
        })
    }
}

fn text_field(doc: &[u8], at: usize, most: usize) -> Result<Field, Refusal>
    ensures { result ≡ text_payload (text_at most doc.now at) }
{
    let Text { place, units } = text_at(doc, at, most)?;
    Ok(Field::Payload {
        place,
        size: 2 * units,
    })
}

fn blob_at(doc: &[u8], at: usize, most: usize) -> Result<Field, Refusal>
    ensures { result ≡ blob_after doc.now (number_at most doc.now at) }
{
    let Number { value, next } = number::read(doc, at, most)?;
    needed_at(doc, next, value)
}

// `at` is the token's place, for the refusal of the length.
fn decimal_at(doc: &[u8], at: usize) -> Result<Field, Refusal>
    requires { at < length doc.now }
    ensures { result ≡ decimal_after doc.now at (number_at mb32 doc.now (at + 1)) }
{
    let Number { value, next } = number::read(doc, at + 1, token::MB32)?;
    if rules::decimal_size(value) {
        needed_at(doc, next, value)
    } else {
        Err(Refusal {
            fault: Fault::BadValue,
            place: at,
        })
    }
}

// A time with `more` bytes after it; `at` is the token's place.
#[tactic(auto, using(crate::proofs::Fields::time_short, crate::proofs::Fields::time_refused, crate::proofs::Fields::time_there))]
fn time_at(doc: &[u8], at: usize, more: usize) -> Result<Field, Refusal>
    requires { (at < length doc.now) × (more ≤ 5) }
    ensures { result ≡ time_field doc.now at more }
{
    let place = at + 1;
    if doc.len() <= place {
        return Err(Refusal {
            fault: Fault::Missing,
            place: doc.len(),
        });
    }
    let precision = doc[place];
    if 7 < precision {
        return Err(Refusal {
            fault: Fault::BadValue,
            place: at,
        });
    }
    needed_at(doc, place, 1 + rules::time_bytes(precision) + more)
}

fn qname_at(doc: &[u8], at: usize) -> Result<Field, Refusal>
    ensures { result ≡ qname_payload (number_at mb32 doc.now at) }
{
    let Number { value, next } = number::read(doc, at, token::MB32)?;
    Ok(Field::Reference {
        number: QnameNumber(value),
        next,
    })
}

// The payload of the token at a place, before the rules on its bytes.
fn extent_at(shape: Shape, doc: &[u8], at: usize) -> Result<Field, Refusal>
    requires { at < length doc.now }
    ensures { result ≡ extent_at shape doc.now at }
{
    match shape {
        Shape::Nothing => needed_at(doc, at + 1, 0),
        Shape::Fixed(size) => needed_at(doc, at + 1, size),
        Shape::Text(most) => text_field(doc, at + 1, most),
        Shape::Blob(most) => blob_at(doc, at + 1, most),
        Shape::CodePage(most) => blob_at(doc, at + 1, most),
        Shape::Decimal => decimal_at(doc, at),
        Shape::Qname => qname_at(doc, at + 1),
        Shape::Stamp(_) => needed_at(doc, at + 1, 8),
        Shape::Date { first: _, last: _ } => needed_at(doc, at + 1, 3),
        Shape::Time { first: _, last: _ } => time_at(doc, at, 3),
        Shape::ZonedTime { first: _, last: _ } => time_at(doc, at, 5),
    }
}

// What the token at a place carries: where its payload lies, or a qname's number, or the refusal.
pub fn read(shape: Shape, doc: &[u8], at: usize) -> Result<Field, Refusal>
    requires { at < length doc.now }
    ensures { (result ≡ field_at shape doc.now at) × Inside (length doc.now) at result }
{
    let field = extent_at(shape, doc, at)?;
    if let Field::Payload { place, size } = field {
        if !rules::obeys(shape, &doc[place..place + size]) {
            return Err(Refusal {
                fault: Fault::BadValue,
                place: at,
            });
        }
    }
    Ok(field)
}
