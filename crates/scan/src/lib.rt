// The token at a place: whether it may stand there, its fields, its payload, and what refuses it, in 01's order.
// Nothing is written here: a step says what reading has to do.
#![tactic(auto)]

ghost use Rattle.std.specs.Prelude.{◌≡◌, ◌<◌, length, Err};
ghost use Rattle.token.specs.Entries.{Listed};
ghost use Rattle.token.specs.Faults.{refusal};
ghost use Rattle.scan.specs.Steps.{class_step, token_step, declared_step, end_step, step_at};
ghost use Rattle.scan.specs.Bounds.{FineIf};

use modes::{Mode, View};
use token::{Class, Fault, NameNumber, QnameNumber, Refusal};

mod tokens;

// The rows that each table holds.
#[derive(Clone, Copy)]
pub struct Room {
    pub names: usize,
    pub qnames: usize,
    pub events: usize,
}

// What a token does. An event's place is that of the token.
#[derive(Clone, Copy)]
pub enum Step {
    // the document's end, which is its length
    End {
        place: usize,
    },
    // a row of names
    Name {
        place: usize,
        units: usize,
        next: usize,
    },
    // a row of qnames
    Qname {
        uri: NameNumber,
        prefix: NameNumber,
        local: NameNumber,
        next: usize,
    },
    Skip {
        next: usize,
    },
    // both counts of this document restart
    Flush {
        next: usize,
    },
    // an event with its two numbers
    Event {
        token: u8,
        a: usize,
        b: usize,
        mode: Mode,
        next: usize,
    },
    // an event that refers to a qname
    Refer {
        token: u8,
        number: QnameNumber,
        mode: Mode,
        next: usize,
    },
    // an element begins
    Open {
        number: QnameNumber,
        next: usize,
    },
    // a PI: its target, and the place of its text's length
    Pi {
        target: NameNumber,
        start: usize,
        next: usize,
    },
    // an element ends
    Close {
        next: usize,
    },
    // a nested document begins
    Nest {
        version: usize,
        next: usize,
    },
    // a nested document ends
    Leave {
        next: usize,
    },
}

fn refuse_token(v: View) -> Result<Step, Refusal>
    ensures { result ≡ Err (refusal Fault.BadToken v.at) }
{
    Err(Refusal {
        fault: Fault::BadToken,
        place: v.at,
    })
}

// What a token of a class does where it may stand.
#[tactic(auto, unfolding(crate::specs::Steps::class_step))]
fn class_step(
    table: &[u16; 256],
    class: Class,
    doc: &[u8],
    v: View,
    room: Room,
    token: u8,
) -> Result<Step, Refusal>
    requires { Listed table.now × (v.at < length doc.now) }
    ensures { result ≡ class_step class doc.now v room token }
{
    match class {
        Class::Unknown | Class::Encoding => refuse_token(v),
        Class::Value | Class::LaterValue => tokens::value_step(table, doc, v, room, token),
        Class::XmlDecl => tokens::text_step(doc, v, room, token, Mode::AfterXmlDecl),
        Class::DocType => tokens::text_step(doc, v, room, token, Mode::AfterDocType),
        Class::System => tokens::text_step(doc, v, room, token, Mode::AfterSystem),
        Class::Public => tokens::text_step(doc, v, room, token, Mode::AfterPublic),
        Class::Subset => tokens::text_step(doc, v, room, token, Mode::Content),
        Class::Element => tokens::element_step(doc, v, room),
        Class::EndElement => tokens::due(v, room, Step::Close { next: v.at + 1 }),
        Class::Attribute => tokens::attribute_step(doc, v, room),
        Class::EndAttributes | Class::CdataEnd => tokens::bare_step(v, room, token),
        Class::Pi => tokens::pi_step(doc, v, room),
        Class::Comment => tokens::text_step(doc, v, room, token, modes::after_misc(v.mode)),
        Class::Cdata => tokens::text_step(doc, v, room, token, Mode::Cdata),
        Class::NameDef => tokens::name_step(doc, v, room),
        Class::QnameDef => tokens::qname_step(doc, v, room),
        Class::Nest => tokens::nest_step(doc, v, room),
        Class::EndNest => tokens::due(v, room, Step::Leave { next: v.at + 1 }),
        Class::Extension => tokens::extension_step(doc, v),
        Class::Flush => Ok(Step::Flush { next: v.at + 1 }),
    }
}

#[tactic(auto, using(sequences::proofs::Tests::tests), unfolding(crate::specs::Steps::token_step))]
fn token_step(
    table: &[u16; 256],
    doc: &[u8],
    v: View,
    room: Room,
    token: u8,
) -> Result<Step, Refusal>
    requires { Listed table.now × (v.at < length doc.now) }
    ensures { result ≡ token_step doc.now v room token }
{
    let class = token::class_at(table, token);
    if modes::may_stand(class, v) {
        class_step(table, class, doc, v, room, token)
    } else {
        refuse_token(v)
    }
}

// The byte after the version's text or the encoding's text of an XML declaration.
#[tactic(auto, using(sequences::proofs::Tests::tests), unfolding(crate::specs::Steps::declared_step))]
fn declared_step(doc: &[u8], v: View, room: Room, byte: u8) -> Result<Step, Refusal>
    requires { v.at < length doc.now }
    ensures { result ≡ declared_step doc.now v room byte }
{
    if v.mode == Mode::AfterXmlDecl && byte == token::ENCODING_TOKEN {
        return tokens::text_step(doc, v, room, byte, Mode::AfterEncoding);
    }
    if 2 < byte {
        return Err(Refusal {
            fault: Fault::BadValue,
            place: v.at,
        });
    }
    tokens::due(
        v,
        room,
        Step::Event {
            token: 0,
            a: usize::from(byte),
            b: 0,
            mode: Mode::Prolog,
            next: v.at + 1,
        },
    )
}

#[tactic(auto, using(sequences::proofs::Tests::tests), unfolding(crate::specs::Steps::end_step))]
fn end_step(size: usize, v: View) -> Result<Step, Refusal>
    ensures { result ≡ end_step size v }
{
    if v.depth == 0 && v.elements == 0 && v.mode <= Mode::AfterPublic {
        Ok(Step::End { place: size })
    } else {
        Err(Refusal {
            fault: Fault::Missing,
            place: size,
        })
    }
}

#[tactic(auto, using(sequences::proofs::Tests::tests), unfolding(crate::specs::Steps::step_at))]
fn found(table: &[u16; 256], doc: &[u8], v: View, room: Room) -> Result<Step, Refusal>
    requires { Listed table.now }
    ensures { result ≡ step_at doc.now v room }
{
    let at = v.at;
    if doc.len() <= at {
        return end_step(doc.len(), v);
    }
    if Mode::AfterXmlDecl <= v.mode {
        return declared_step(doc, v, room, doc[at]);
    }
    token_step(table, doc, v, room, doc[at])
}

// What stands at the view's place, or why it is refused.
#[tactic(auto, using(crate::proofs::Fine::found_fine))]
pub fn step_at(table: &[u16; 256], doc: &[u8], v: View, room: Room) -> Result<Step, Refusal>
    requires { Listed table.now }
    ensures { (result ≡ step_at doc.now v room) × FineIf (length doc.now) v room result }
{
    found(table, doc, v, room)
}
