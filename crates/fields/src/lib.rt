// Fields of tokens that are no payload: references to names and qnames by number, and the header of a document
// (004, sections 2.1.1 and 2.2; 01, "Document rules").
#![tactic(auto)]

ghost use Rattle.std.specs.Prelude.{◌≡◌, ◌<◌, length};
ghost use Rattle.fields.specs.Fields.{name_at, qname_at, header_at};
ghost use Rattle.fields.specs.Bounds.{NameWithin, QnameWithin, HeaderWithin};
ghost use Rattle.fields.specs.Faults.{byte_judged};

use token::{Fault, NameNumber, QnameNumber, Refusal};

// A reference to a name: its number, and the place after it.
#[derive(Clone, Copy)]
pub struct Name {
    pub number: NameNumber,
    pub next: usize,
}

// A reference to a qname: its number, and the place after it.
#[derive(Clone, Copy)]
pub struct Qname {
    pub number: QnameNumber,
    pub next: usize,
}

// A header: its version, and the place after it.
#[derive(Clone, Copy)]
pub struct Header {
    pub version: usize,
    pub next: usize,
}

// The name's number at a place, in a document that has `known` names: 0 is the empty text.
#[tactic(auto, using(sequences::proofs::Tests::tests), unfolding(crate::specs::Fields::name_at))]
pub fn name_at(doc: &[u8], at: usize, known: usize) -> Result<Name, Refusal>
    ensures { (result ≡ name_at known doc.now at) × NameWithin (length doc.now) at known result }
{
    let name = number::read(doc, at, token::MB32)?;
    if name.value <= known {
        Ok(Name {
            number: NameNumber(name.value),
            next: name.next,
        })
    } else {
        Err(Refusal {
            fault: Fault::NotDefined,
            place: at,
        })
    }
}

// The qname's number at a place, in a document that has `known` qnames: from 1.
#[tactic(auto, using(sequences::proofs::Tests::tests), unfolding(crate::specs::Fields::qname_at))]
pub fn qname_at(doc: &[u8], at: usize, known: usize) -> Result<Qname, Refusal>
    ensures { (result ≡ qname_at known doc.now at) × QnameWithin (length doc.now) at known result }
{
    let qname = number::read(doc, at, token::MB32)?;
    if qname.value != 0 && qname.value <= known {
        Ok(Qname {
            number: QnameNumber(qname.value),
            next: qname.next,
        })
    } else {
        Err(Refusal {
            fault: Fault::NotDefined,
            place: at,
        })
    }
}

// That the byte at a place lies from `first` to `last`.
#[tactic(auto, using(sequences::proofs::Tests::tests), unfolding(crate::specs::Faults::byte_judged))]
fn byte_within(doc: &[u8], at: usize, first: u8, last: u8) -> Result<(), Refusal>
    ensures { result ≡ byte_judged doc.now at first last }
{
    if doc.len() <= at {
        return Err(Refusal {
            fault: Fault::Missing,
            place: doc.len(),
        });
    }
    if first <= doc[at] && doc[at] <= last {
        Ok(())
    } else {
        Err(Refusal {
            fault: Fault::BadHeader,
            place: at,
        })
    }
}

// The header at a place: its version and the place after it.
#[tactic(auto, using(sequences::proofs::Tests::tests), unfolding(crate::specs::Fields::header_at, crate::specs::Faults::byte_judged))]
pub fn header_at(doc: &[u8], at: usize) -> Result<Header, Refusal>
    ensures { (result ≡ header_at doc.now at) × HeaderWithin (length doc.now) at result }
{
    byte_within(doc, at, 0xDF, 0xDF)?;
    byte_within(doc, at + 1, 0xFF, 0xFF)?;
    byte_within(doc, at + 2, 1, 2)?;
    byte_within(doc, at + 3, 0xB0, 0xB0)?;
    byte_within(doc, at + 4, 0x04, 0x04)?;
    Ok(Header {
        version: usize::from(doc[at + 2]),
        next: at + 5,
    })
}
