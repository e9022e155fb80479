// Reading: a document into three lent tables of 32-bit numbers, for any document and any tables (01, "The four jobs").
#![tactic(auto)]

ghost use Rattle.std.specs.Prelude.{◌≡◌, suc, length};
ghost use Rattle.token.specs.Entries.{Listed};
ghost use Rattle.machine.specs.Machine.{blank, view, started, result as result_of, run, reading, room_in, read_answer, Reads};
ghost use Rattle.rows.specs.Tables.{answer_at, ReadingBegins};

use common::Common;
use fields::Header;
use machine::Answer;
use modes::{Mode, View};
use rows::{Frame, Stacks};
use scan::{Room, Step};

// Before the first token, which stands after the outer header. Each field is written: a default view would need a default mode,
// which nothing else has a use for.
fn first_view(version: usize, next: usize) -> View
    ensures { result ≡ view (started version next) }
{
    View {
        at: next,
        mode: Mode::First,
        version,
        elements: 0,
        opened: 0,
        depth: 0,
        known: 0,
        base: 0,
        qknown: 0,
        qbase: 0,
        names: 0,
        qnames: 0,
        events: 0,
    }
}

fn answered(v: View, number: u32, place: usize, version: usize) -> Answer
    ensures { result ≡ answer_at v number place version }
{
    Answer {
        number,
        place,
        names: v.names,
        qnames: v.qnames,
        events: v.events,
        version,
    }
}

// Token after token, from the place after the outer header on. The commonest ones go a short way: their rows are written
// at once, and neither the scanner's step nor `turn` is asked.
fn walk(
    table: &[u16; 256],
    doc: &[u8],
    names: &mut [u32],
    qnames: &mut [u32],
    events: &mut [u32],
    room: Room,
    version: usize,
    next: usize,
) -> Answer
    requires { Listed table.now × ReadingBegins (length doc.now) room names.old qnames.old events.old next }
    ensures { Reads (run (suc (length doc.now)) doc.now room version (started version next))
        names.old qnames.old events.old names.new qnames.new events.new result }
{
    // A first value whose bytes differ is stored by vector instructions, and one of equal bytes by a call of memset.
    let mut stacks = Stacks {
        names: [1; token::NAME_ROWS],
        qnames: [1; token::QNAME_ROWS],
        frames: [Frame::default(); token::NESTED_DOCUMENTS],
    };
    let mut v = first_view(version, next);
    loop {
        let common = common::common_at(table, doc, v, room);
        match common {
            None => {}
            Some(Common::End) => {
                v = steps::close_element(events, v, v.at + 1);
                continue;
            }
            Some(Common::Begin(number)) => {
                v = steps::add_element(events, &stacks, v, number, v.at + 2);
                continue;
            }
            Some(Common::Fixed(size)) => {
                v = steps::add_value(events, doc, v, size);
                continue;
            }
        }
        // Handed on as it was found: a step taken out of its Result would be copied, and told apart a second time.
        let found = scan::step_at(table, doc, v, room);
        match found {
            Err(r) => break answered(v, r.fault.number(), r.place, version),
            Ok(Step::End { place }) => break answered(v, token::ACCEPTED, place, version),
            Ok(_) => {}
        }
        v = steps::turn(
            names,
            qnames,
            events,
            &mut stacks,
            v,
            room,
            doc.len(),
            found,
        );
    }
}

// The whole rows that the lent tables hold, within the bounds.
fn room_of(names: usize, qnames: usize, events: usize) -> Room
    ensures { result ≡ room_in names qnames events }
{
    Room {
        names: (names / token::NAME_WIDTH).min(token::NAME_ROWS),
        qnames: (qnames / token::QNAME_WIDTH).min(token::QNAME_ROWS),
        events: (events / token::EVENT_WIDTH).min(token::EVENT_ROWS),
    }
}

// No field is left to take from another answer but the three zeros.
fn none_read(number: u32, place: usize) -> Answer
    ensures { result ≡ read_answer (result_of number place 0 blank) }
{
    Answer {
        number,
        place,
        names: 0,
        qnames: 0,
        events: 0,
        version: 0,
    }
}

// Reads a document into the three tables. Rows completed stay after a refusal, and nothing past them is touched. Its local arrays
// take 9 KB of the stack.
#[tactic(auto, using(crate::proofs::Whole::too_long_read))]
pub fn read(doc: &[u8], names: &mut [u32], qnames: &mut [u32], events: &mut [u32]) -> Answer
    ensures { Reads (reading doc.now (room_in (length names.old) (length qnames.old) (length events.old)))
        names.old qnames.old events.old names.new qnames.new events.new result }
{
    if token::LONGEST < doc.len() {
        return none_read(token::TOO_LONG, token::LONGEST);
    }
    match fields::header_at(doc, 0) {
        Err(r) => none_read(r.fault.number(), r.place),
        Ok(Header { version, next }) => {
            let table = token::table();
            let room = room_of(names.len(), qnames.len(), events.len());
            walk(&table, doc, names, qnames, events, room, version, next)
        }
    }
}
