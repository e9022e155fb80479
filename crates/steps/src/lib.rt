// What each step does: its row, the stacks, and the view after it.
#![tactic(auto)]

ghost use Rattle.std.specs.Prelude.{◌≡◌, ◌+◌, ◌*◌, ◌≤◌, ◌<◌, length, get_or};
ghost use Rattle.scan.specs.Bounds.{FineIf};
ghost use Rattle.modes.specs.Modes.{after_misc};
ghost use Rattle.rows.specs.Tables.{tables, put2, put3, put4, row_at, with_name, with_qname, with_frame, parent, EventFits, evented, named, qnamed, entered, element_closed, inside, outside, TurnedIf, Held};
ghost use Rattle.token.specs.Tokens.{ELEMENT_TOKEN, PI_TOKEN, ENDELEMENT_TOKEN, NEST_TOKEN, ENDNEST_TOKEN, name_width, qname_width, longest, name_rows, qname_rows, open_elements, nested_documents};

use modes::{Mode, View};
use rows::Stacks;
use scan::{Room, Step};
use token::{NameNumber, QnameNumber, Refusal};

fn define_name(
    names: &mut [u32],
    stacks: &mut Stacks,
    v: View,
    place: usize,
    units: usize,
    next: usize,
) -> View
    requires { (v.names < name_rows) × (name_width * v.names + name_width ≤ length names.old) × (place ≤ longest) × (units ≤ longest)
        × (v.base + v.known ≤ v.names) }
    ensures { (names.new ≡ put2 names.old v.names place units)
        × (stacks.new ≡ with_name stacks.old v) × (result ≡ named v next) }
{
    rows::put_name(names, v.names, place, units);
    stacks.push_name(v);
    rows::past_name(v, next)
}

fn define_qname(
    qnames: &mut [u32],
    stacks: &mut Stacks,
    v: View,
    uri: NameNumber,
    prefix: NameNumber,
    local: NameNumber,
    next: usize,
) -> View
    requires { (v.qnames < qname_rows) × (qname_width * v.qnames + qname_width ≤ length qnames.old) × (v.base + uri.0 ≤ name_rows) × (v.base + prefix.0 ≤ name_rows)
        × (v.base + local.0 ≤ name_rows) × (v.qbase + v.qknown ≤ v.qnames) }
    ensures { (qnames.new ≡ put3 qnames.old v.qnames (row_at stacks.old.names v.base uri.0)
        (row_at stacks.old.names v.base prefix.0) (row_at stacks.old.names v.base local.0))
        × (stacks.new ≡ with_qname stacks.old v) × (result ≡ qnamed v next) }
{
    let u = stacks.name_row(v, uri);
    let p = stacks.name_row(v, prefix);
    let l = stacks.name_row(v, local);
    rows::put_qname(qnames, v.qnames, u, p, l);
    stacks.push_qname(v);
    rows::past_qname(v, next)
}

fn add_event(
    events: &mut [u32],
    v: View,
    token: u8,
    a: usize,
    b: usize,
    mode: Mode,
    next: usize,
) -> View
    requires { EventFits events.old v × (a ≤ longest + 2) × (b ≤ longest) }
    ensures { (events.new ≡ put4 events.old v.events token v.at a b) × (result ≡ evented v mode next) }
{
    rows::put_event(events, v, token, a as u32, b as u32);
    rows::past_event(v, mode, next)
}

// A value of so many bytes, which stand behind its token.
pub fn add_value(events: &mut [u32], doc: &[u8], v: View, size: usize) -> View
    requires { EventFits events.old v × (v.at + 1 + size ≤ length doc.now) × (length doc.now ≤ longest) }
    ensures { (events.new ≡ put4 events.old v.events (get_or doc.now v.at 0) v.at (v.at + 1) size)
        × (result ≡ evented v Mode.Content (v.at + 1 + size)) }
{
    let at = v.at;
    add_event(
        events,
        v,
        doc[at],
        at + 1,
        size,
        Mode::Content,
        at + 1 + size,
    )
}

fn add_reference(
    events: &mut [u32],
    stacks: &Stacks,
    v: View,
    token: u8,
    number: QnameNumber,
    mode: Mode,
    next: usize,
) -> View
    requires { EventFits events.old v × (v.qbase + number.0 ≤ qname_rows) }
    ensures { (events.new ≡ put4 events.old v.events token v.at (row_at stacks.now.qnames v.qbase number.0) 0)
        × (result ≡ evented v mode next) }
{
    rows::put_event(events, v, token, stacks.qname_row(v, number), 0);
    rows::past_event(v, mode, next)
}

pub fn add_element(
    events: &mut [u32],
    stacks: &Stacks,
    v: View,
    number: QnameNumber,
    next: usize,
) -> View
    requires { EventFits events.old v × (v.qbase + number.0 ≤ qname_rows)
        × (v.elements ≤ open_elements) × (v.opened ≤ open_elements) }
    ensures { (events.new ≡ put4 events.old v.events ELEMENT_TOKEN v.at (row_at stacks.now.qnames v.qbase number.0) 0)
        × (result ≡ entered v next) }
{
    rows::put_event(
        events,
        v,
        token::ELEMENT_TOKEN,
        stacks.qname_row(v, number),
        0,
    );
    rows::past_open(v, next)
}

fn add_pi(
    events: &mut [u32],
    stacks: &Stacks,
    v: View,
    target: NameNumber,
    start: usize,
    next: usize,
) -> View
    requires { EventFits events.old v × (v.base + target.0 ≤ name_rows) × (start ≤ longest) }
    ensures { (events.new ≡ put4 events.old v.events PI_TOKEN v.at (row_at stacks.now.names v.base target.0) start)
        × (result ≡ evented v (after_misc v.mode) next) }
{
    rows::put_event(
        events,
        v,
        token::PI_TOKEN,
        stacks.name_row(v, target),
        start as u32,
    );
    rows::past_event(v, modes::after_misc(v.mode), next)
}

pub fn close_element(events: &mut [u32], v: View, next: usize) -> View
    requires { EventFits events.old v × (0 < v.elements) × (v.elements ≤ v.opened) }
    ensures { (events.new ≡ put4 events.old v.events ENDELEMENT_TOKEN v.at 0 0) × (result ≡ element_closed v next) }
{
    rows::put_event(events, v, token::ENDELEMENT_TOKEN, 0, 0);
    rows::past_close(v, next)
}

fn enter_document(
    events: &mut [u32],
    stacks: &mut Stacks,
    v: View,
    version: usize,
    next: usize,
) -> View
    requires { EventFits events.old v × (version ≤ 2) × (v.depth < nested_documents)
        × (v.base + v.known ≤ name_rows) × (v.qbase + v.qknown ≤ qname_rows) }
    ensures { (events.new ≡ put4 events.old v.events NEST_TOKEN v.at version 0)
        × (stacks.new ≡ with_frame stacks.old v) × (result ≡ inside v version next) }
{
    rows::put_event(events, v, token::NEST_TOKEN, version as u32, 0);
    stacks.keep_frame(v);
    rows::past_nest(v, version, next)
}

fn leave_document(events: &mut [u32], stacks: &Stacks, v: View, next: usize) -> View
    requires { EventFits events.old v × (0 < v.depth) × (v.depth ≤ nested_documents) }
    ensures { (events.new ≡ put4 events.old v.events ENDNEST_TOKEN v.at 0 0) × (result ≡ outside (parent stacks.now v) v next) }
{
    rows::put_event(events, v, token::ENDNEST_TOKEN, 0, 0);
    rows::past_leave(stacks.parent(v), v, next)
}

// What a step does to the tables, and the view after it. A refusal leaves all as it was. `size` and `room` only say what the step was
// judged by.
// The three tables are lent one by one: as one struct they would be references that are passed by value.
pub fn turn(
    names: &mut [u32],
    qnames: &mut [u32],
    events: &mut [u32],
    stacks: &mut Stacks,
    v: View,
    room: Room,
    size: usize,
    step: Result<Step, Refusal>,
) -> View
    requires { Held size room (tables names.old qnames.old events.old stacks.old) v × FineIf size v room step }
    ensures { TurnedIf (tables names.old qnames.old events.old stacks.old)
        (tables names.new qnames.new events.new stacks.new) v step result }
{
    match step {
        Ok(Step::End { place: _ }) => v,
        Ok(Step::Name { place, units, next }) => define_name(names, stacks, v, place, units, next),
        Ok(
            Step::Qname {
                uri,
                prefix,
                local,
                next,
            },
        ) => define_qname(qnames, stacks, v, uri, prefix, local, next),
        Ok(Step::Skip { next }) => rows::skip(v, next),
        Ok(Step::Flush { next }) => rows::past_flush(v, next),
        Ok(
            Step::Event {
                token,
                a,
                b,
                mode,
                next,
            },
        ) => add_event(events, v, token, a, b, mode, next),
        Ok(
            Step::Refer {
                token,
                number,
                mode,
                next,
            },
        ) => add_reference(events, stacks, v, token, number, mode, next),
        Ok(Step::Open { number, next }) => add_element(events, stacks, v, number, next),
        Ok(
            Step::Pi {
                target,
                start,
                next,
            },
        ) => add_pi(events, stacks, v, target, start, next),
        Ok(Step::Close { next }) => close_element(events, v, next),
        Ok(Step::Nest { version, next }) => enter_document(events, stacks, v, version, next),
        Ok(Step::Leave { next }) => leave_document(events, stacks, v, next),
        Err(_) => v,
    }
}
