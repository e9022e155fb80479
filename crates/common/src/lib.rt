// The commonest tokens, told with fewer tests where nothing refuses them.
#![tactic(auto)]

ghost use Rattle.std.specs.Prelude.{◌≡◌, get_or, ◌<◌};
ghost use Rattle.token.specs.Entries.{Listed};
ghost use Rattle.token.specs.Tokens.{ELEMENT_TOKEN};
ghost use Rattle.scan.specs.Steps.{step_at};
ghost use Rattle.common.specs.Common.{common_step, Ready};

use modes::{Mode, View};
use scan::Room;
use token::QnameNumber;

// ELEMENT, where its number has one byte.
#[tactic(auto, using(crate::proofs::Commonest::begins))]
fn common_element(doc: &[u8], v: View, room: Room) -> Option<Common>
    requires { Ready doc.now v room × (get_or doc.now v.at 0 ≡ ELEMENT_TOKEN) }
    ensures { common_step doc.now v room result ≡ step_at doc.now v room }
{
    let at = v.at;
    if v.opened >= token::OPEN_ELEMENTS || doc.len() - at <= 1 {
        return None;
    }
    let number = usize::from(doc[at + 1]);
    if number == 0 || 128 <= number || v.qknown < number {
        return None;
    }
    Some(Common::Begin(QnameNumber(number)))
}

// A value of fixed size, where its bytes lie in the document.
#[tactic(auto, using(crate::proofs::Commonest::fixes))]
fn common_value(table: &[u16; 256], doc: &[u8], v: View, room: Room) -> Option<Common>
    requires { Listed table.now × Ready doc.now v room }
    ensures { common_step doc.now v room result ≡ step_at doc.now v room }
{
    let at = v.at;
    let size = token::fixed_at(table, doc[at]);
    if size == 0 || doc.len() - at <= size {
        return None;
    }
    Some(Common::Fixed(size))
}

// Whether one of the commonest tokens stands at the view's place and nothing refuses it: a way to the same step with
// fewer tests, and with no `Step` to make and take apart.
pub fn common_at(table: &[u16; 256], doc: &[u8], v: View, room: Room) -> Option<Common>
    requires { Listed table.now }
    ensures { common_step doc.now v room result ≡ step_at doc.now v room }
{
    let at = v.at;
    if doc.len() <= at || Mode::AfterPublic < v.mode || room.events <= v.events {
        return None;
    }
    if doc[at] == token::ENDELEMENT_TOKEN {
        if v.elements == 0 {
            return None;
        }
        return Some(Common::End);
    }
    if doc[at] == token::ELEMENT_TOKEN {
        return common_element(doc, v, room);
    }
    common_value(table, doc, v, room)
}

// The commonest tokens, where nothing refuses them.
#[derive(Clone, Copy)]
pub enum Common {
    // ENDELEMENT: an element ends
    End,
    // ELEMENT with a number of one byte: an element begins
    Begin(QnameNumber),
    // a value of so many bytes, after which content comes
    Fixed(usize),
}
