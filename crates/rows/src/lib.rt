// What is kept of the open documents (stacks of rows by number, frames), what reading writes into the tables, and the view after
// each kind of step.
#![tactic(auto)]

ghost use Rattle.std.specs.Prelude.{◌≡◌, ◌+◌, ◌*◌, ◌≤◌, ◌<◌, length};
ghost use Rattle.rows.specs.Tables.{put2, put3, put4, row_at, with_name, with_qname, with_frame, parent, EventFits, moved, evented, named, qnamed, flushed, entered, element_closed, inside, outside};
ghost use Rattle.modes.specs.Modes.{after_metadata};
ghost use Rattle.token.specs.Tokens.{name_width, qname_width, longest, name_rows, qname_rows, event_rows, open_elements, nested_documents};

use modes::{Mode, View};
use token::{NameNumber, QnameNumber};

// What a document has when a nested one begins, and again when that ends.
#[derive(Clone, Copy, Default)]
pub struct Frame {
    pub base: usize,
    pub known: usize,
    pub qbase: usize,
    pub qknown: usize,
    pub elements: usize,
    pub version: usize,
}

// Of all open documents: the rows of their names and of their qnames, and a frame for each document around the innermost.
#[derive(Drop)]
pub struct Stacks {
    pub names: [u32; token::NAME_ROWS],
    pub qnames: [u32; token::QNAME_ROWS],
    pub frames: [Frame; token::NESTED_DOCUMENTS],
}

fn row_at(stack: &[u32; token::NAME_ROWS], base: usize, number: usize) -> u32
    requires { base + number ≤ name_rows }
    ensures { result ≡ row_at stack.now base number }
{
    match number {
        0 => 0,
        _ => stack[base + number - 1],
    }
}

impl Stacks {
    // Only a name's number finds a row of names, and only a qname's number a row of qnames.
    pub fn name_row(&self, v: View, number: NameNumber) -> u32
        requires { v.base + number.0 ≤ name_rows }
        ensures { result ≡ row_at self.now.names v.base number.0 }
    {
        row_at(&self.names, v.base, number.0)
    }

    pub fn qname_row(&self, v: View, number: QnameNumber) -> u32
        requires { v.qbase + number.0 ≤ qname_rows }
        ensures { result ≡ row_at self.now.qnames v.qbase number.0 }
    {
        row_at(&self.qnames, v.qbase, number.0)
    }

    // The newest row is the next of its document's names, or qnames.
    pub fn push_name(&mut self, v: View)
        requires { (v.base + v.known < name_rows) × (v.names < name_rows) }
        ensures { self.new ≡ with_name self.old v }
    {
        self.names[v.base + v.known] = (v.names + 1) as u32;
    }

    pub fn push_qname(&mut self, v: View)
        requires { (v.qbase + v.qknown < qname_rows) × (v.qnames < qname_rows) }
        ensures { self.new ≡ with_qname self.old v }
    {
        self.qnames[v.qbase + v.qknown] = (v.qnames + 1) as u32;
    }

    pub fn keep_frame(&mut self, v: View)
        requires { v.depth < nested_documents }
        ensures { self.new ≡ with_frame self.old v }
    {
        self.frames[v.depth] = Frame {
            base: v.base,
            known: v.known,
            qbase: v.qbase,
            qknown: v.qknown,
            elements: v.elements,
            version: v.version,
        };
    }

    pub fn parent(&self, v: View) -> Frame
        requires { (0 < v.depth) × (v.depth ≤ nested_documents) }
        ensures { result ≡ parent self.now v }
    {
        self.frames[v.depth - 1]
    }
}

// ---- what each step writes

pub fn put_name(names: &mut [u32], row: usize, place: usize, units: usize)
    requires { (row < name_rows) × (name_width * row + name_width ≤ length names.old) × (place ≤ longest) × (units ≤ longest) }
    ensures { names.new ≡ put2 names.old row place units }
{
    names[token::NAME_WIDTH * row] = place as u32;
    names[token::NAME_WIDTH * row + 1] = units as u32;
}

pub fn put_qname(qnames: &mut [u32], row: usize, uri: u32, prefix: u32, local: u32)
    requires { (row < name_rows) × (qname_width * row + qname_width ≤ length qnames.old) }
    ensures { qnames.new ≡ put3 qnames.old row uri prefix local }
{
    qnames[token::QNAME_WIDTH * row] = uri;
    qnames[token::QNAME_WIDTH * row + 1] = prefix;
    qnames[token::QNAME_WIDTH * row + 2] = local;
}

// The event's place is the view's.
pub fn put_event(events: &mut [u32], v: View, token: u8, a: u32, b: u32)
    requires { EventFits events.old v }
    ensures { events.new ≡ put4 events.old v.events token v.at a b }
{
    let row = v.events;
    events[token::EVENT_WIDTH * row] = token as u32;
    events[token::EVENT_WIDTH * row + 1] = v.at as u32;
    events[token::EVENT_WIDTH * row + 2] = a;
    events[token::EVENT_WIDTH * row + 3] = b;
}

// ---- the view after each step

fn move_on(v: View, mode: Mode, next: usize) -> View
    ensures { result ≡ moved v mode next }
{
    View {
        at: next,
        mode,
        ..v
    }
}

pub fn past_event(v: View, mode: Mode, next: usize) -> View
    requires { v.events < event_rows }
    ensures { result ≡ evented v mode next }
{
    View {
        events: v.events + 1,
        ..move_on(v, mode, next)
    }
}

pub fn skip(v: View, next: usize) -> View
    ensures { result ≡ moved v (after_metadata v.mode) next }
{
    move_on(v, modes::after_metadata(v.mode), next)
}

pub fn past_name(v: View, next: usize) -> View
    requires { (v.names < name_rows) × (v.known ≤ name_rows) }
    ensures { result ≡ named v next }
{
    View {
        known: v.known + 1,
        names: v.names + 1,
        ..skip(v, next)
    }
}

pub fn past_qname(v: View, next: usize) -> View
    requires { (v.qnames < qname_rows) × (v.qknown ≤ qname_rows) }
    ensures { result ≡ qnamed v next }
{
    View {
        qknown: v.qknown + 1,
        qnames: v.qnames + 1,
        ..skip(v, next)
    }
}

pub fn past_flush(v: View, next: usize) -> View
    ensures { result ≡ flushed v next }
{
    View {
        known: 0,
        qknown: 0,
        ..skip(v, next)
    }
}

pub fn past_open(v: View, next: usize) -> View
    requires { (v.events < event_rows) × (v.elements ≤ open_elements) × (v.opened ≤ open_elements) }
    ensures { result ≡ entered v next }
{
    View {
        elements: v.elements + 1,
        opened: v.opened + 1,
        ..past_event(v, Mode::Tag, next)
    }
}

pub fn past_close(v: View, next: usize) -> View
    requires { (v.events < event_rows) × (0 < v.elements) × (v.elements ≤ v.opened) }
    ensures { result ≡ element_closed v next }
{
    View {
        elements: v.elements - 1,
        opened: v.opened - 1,
        ..past_event(v, Mode::Content, next)
    }
}

// The nested document has no names yet: its own begin where the stacks end.
pub fn past_nest(v: View, version: usize, next: usize) -> View
    requires { (v.events < event_rows) × (v.depth < nested_documents) × (v.base + v.known ≤ name_rows) × (v.qbase + v.qknown ≤ qname_rows) }
    ensures { result ≡ inside v version next }
{
    View {
        version,
        elements: 0,
        depth: v.depth + 1,
        base: v.base + v.known,
        known: 0,
        qbase: v.qbase + v.qknown,
        qknown: 0,
        ..past_event(v, Mode::First, next)
    }
}

// Its parent's names, qnames, open elements and version return.
pub fn past_leave(frame: Frame, v: View, next: usize) -> View
    requires { (v.events < event_rows) × (0 < v.depth) }
    ensures { result ≡ outside frame v next }
{
    View {
        depth: v.depth - 1,
        base: frame.base,
        known: frame.known,
        qbase: frame.qbase,
        qknown: frame.qknown,
        elements: frame.elements,
        version: frame.version,
        ..past_event(v, Mode::Content, next)
    }
}
