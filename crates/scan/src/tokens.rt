// What each token does where it may stand: its fields in their order, then its step, or what refuses it.
ghost use Rattle.std.specs.Prelude.{◌≡◌, ◌+◌, ◌<◌, length, Ok};
ghost use Rattle.token.specs.Entries.{Listed};
ghost use Rattle.scan.specs.Steps.{event_due, text_step, name_step, qname_step, extension_step, pi_step, element_step, attribute_step, value_after, value_step, nest_step};

use crate::{Room, Step};
use fields::{Header, Qname};
use modes::{Mode, View};
use number::Number;
use token::{Fault, NameNumber, QnameNumber, Refusal};
use value::{Field, Text};

// The event, or 9 where no row is left.
#[tactic(auto, using(sequences::proofs::Tests::tests), unfolding(crate::specs::Steps::event_due))]
pub fn due(v: View, room: Room, on: Step) -> Result<Step, Refusal>
    ensures { result ≡ event_due v room on }
{
    if v.events < room.events {
        Ok(on)
    } else {
        Err(Refusal {
            fault: Fault::NoRow,
            place: v.at,
        })
    }
}

// A token with a text, after which `mode` holds. Nine arms of `class_step` call it: called and not inlined, it makes every token pay
// for the view and the room in memory.
#[inline(always)]
#[tactic(auto, using(sequences::proofs::Tests::tests), unfolding(crate::specs::Steps::text_step))]
pub fn text_step(doc: &[u8], v: View, room: Room, token: u8, mode: Mode) -> Result<Step, Refusal>
    requires { v.at < length doc.now }
    ensures { result ≡ text_step doc.now v room token mode }
{
    let Text { place, units } = value::text_at(doc, v.at + 1, token::MB32)?;
    due(
        v,
        room,
        Step::Event {
            token,
            a: place,
            b: units,
            mode,
            next: place + 2 * units,
        },
    )
}

#[tactic(auto, using(sequences::proofs::Tests::tests), unfolding(crate::specs::Steps::name_step))]
pub fn name_step(doc: &[u8], v: View, room: Room) -> Result<Step, Refusal>
    requires { v.at < length doc.now }
    ensures { result ≡ name_step doc.now v room }
{
    let Text { place, units } = value::text_at(doc, v.at + 1, token::MB32)?;
    if v.names < room.names {
        Ok(Step::Name {
            place,
            units,
            next: place + 2 * units,
        })
    } else {
        Err(Refusal {
            fault: Fault::NoRow,
            place: v.at,
        })
    }
}

#[tactic(auto, using(sequences::proofs::Tests::tests), unfolding(crate::specs::Steps::qname_step))]
pub fn qname_step(doc: &[u8], v: View, room: Room) -> Result<Step, Refusal>
    requires { v.at < length doc.now }
    ensures { result ≡ qname_step doc.now v room }
{
    let uri = fields::name_at(doc, v.at + 1, v.known)?;
    let prefix = fields::name_at(doc, uri.next, v.known)?;
    let local = fields::name_at(doc, prefix.next, v.known)?;
    if v.qnames < room.qnames {
        Ok(Step::Qname {
            uri: uri.number,
            prefix: prefix.number,
            local: local.number,
            next: local.next,
        })
    } else {
        Err(Refusal {
            fault: Fault::NoRow,
            place: v.at,
        })
    }
}

#[tactic(auto, using(sequences::proofs::Tests::tests), unfolding(crate::specs::Steps::extension_step))]
pub fn extension_step(doc: &[u8], v: View) -> Result<Step, Refusal>
    requires { v.at < length doc.now }
    ensures { result ≡ extension_step doc.now v }
{
    let Number { value, next } = number::read(doc, v.at + 1, token::MB32)?;
    if value <= doc.len() - next {
        Ok(Step::Skip { next: next + value })
    } else {
        Err(Refusal {
            fault: Fault::Missing,
            place: doc.len(),
        })
    }
}

#[tactic(auto, using(sequences::proofs::Tests::tests), unfolding(crate::specs::Steps::pi_step))]
pub fn pi_step(doc: &[u8], v: View, room: Room) -> Result<Step, Refusal>
    requires { v.at < length doc.now }
    ensures { result ≡ pi_step doc.now v room }
{
    let target = fields::name_at(doc, v.at + 1, v.known)?;
    let start = target.next;
    let Text { place, units } = value::text_at(doc, start, token::MB32)?;
    due(
        v,
        room,
        Step::Pi {
            target: target.number,
            start,
            next: place + 2 * units,
        },
    )
}

#[tactic(auto, using(sequences::proofs::Tests::tests), unfolding(crate::specs::Steps::element_step))]
pub fn element_step(doc: &[u8], v: View, room: Room) -> Result<Step, Refusal>
    requires { v.at < length doc.now }
    ensures { result ≡ element_step doc.now v room }
{
    if token::OPEN_ELEMENTS <= v.opened {
        return Err(Refusal {
            fault: Fault::TooDeep,
            place: v.at,
        });
    }
    let Qname { number, next } = fields::qname_at(doc, v.at + 1, v.qknown)?;
    due(v, room, Step::Open { number, next })
}

#[tactic(auto, using(sequences::proofs::Tests::tests), unfolding(crate::specs::Steps::attribute_step))]
pub fn attribute_step(doc: &[u8], v: View, room: Room) -> Result<Step, Refusal>
    requires { v.at < length doc.now }
    ensures { result ≡ attribute_step doc.now v room }
{
    let Qname { number, next } = fields::qname_at(doc, v.at + 1, v.qknown)?;
    due(
        v,
        room,
        Step::Refer {
            token: token::ATTRIBUTE_TOKEN,
            number,
            mode: Mode::Attributes,
            next,
        },
    )
}

// A value that refers to a qname: its number must be one of this document's.
#[tactic(auto, using(sequences::proofs::Tests::tests))]
fn reference_step(
    v: View,
    room: Room,
    token: u8,
    number: QnameNumber,
    next: usize,
) -> Result<Step, Refusal>
    requires { v.at < 18446744073709551615 }
    ensures { result ≡ value_after v room token (Ok (Field.Reference number next)) }
{
    if number.0 == 0 || v.qknown < number.0 {
        return Err(Refusal {
            fault: Fault::NotDefined,
            place: v.at + 1,
        });
    }
    let mode = v.mode;
    let after = modes::after_value(mode);
    due(
        v,
        room,
        Step::Refer {
            token,
            number,
            mode: after,
            next,
        },
    )
}

#[tactic(auto, using(sequences::proofs::Tests::tests), unfolding(crate::specs::Steps::value_step))]
pub fn value_step(
    table: &[u16; 256],
    doc: &[u8],
    v: View,
    room: Room,
    token: u8,
) -> Result<Step, Refusal>
    requires { Listed table.now × (v.at < length doc.now) }
    ensures { result ≡ value_step doc.now v room token }
{
    let mode = v.mode;
    match value::read(token::shape_at(table, token), doc, v.at)? {
        Field::Reference { number, next } => reference_step(v, room, token, number, next),
        Field::Payload { place, size } => due(
            v,
            room,
            Step::Event {
                token,
                a: place,
                b: size,
                mode: modes::after_value(mode),
                next: place + size,
            },
        ),
    }
}

#[tactic(auto, using(sequences::proofs::Tests::tests), unfolding(crate::specs::Steps::nest_step))]
pub fn nest_step(doc: &[u8], v: View, room: Room) -> Result<Step, Refusal>
    requires { v.at < length doc.now }
    ensures { result ≡ nest_step doc.now v room }
{
    if token::NESTED_DOCUMENTS <= v.depth {
        return Err(Refusal {
            fault: Fault::TooDeep,
            place: v.at,
        });
    }
    let Header { version, next } = fields::header_at(doc, v.at + 1)?;
    due(v, room, Step::Nest { version, next })
}

// An event with no fields, after which content comes.
pub fn bare_step(v: View, room: Room, token: u8) -> Result<Step, Refusal>
    requires { v.at < 18446744073709551615 }
    ensures { result ≡ event_due v room (Step.Event token 0 0 Mode.Content (v.at + 1)) }
{
    due(
        v,
        room,
        Step::Event {
            token,
            a: 0,
            b: 0,
            mode: Mode::Content,
            next: v.at + 1,
        },
    )
}
