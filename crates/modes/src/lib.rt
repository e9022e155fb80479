// What may come next in a document: modes, the view that a token is judged by, and whether a token may stand at its place.
#![tactic(auto)]

ghost use Rattle.std.specs.Prelude.{◌≡◌, ◌<◌, ◌&&◌, ◌||◌};
ghost use Rattle.modes.specs.Modes.{allowed, after_metadata, after_misc, after_value};

use token::Class;

// What may come next. The order counts: content stands in the modes up to AfterPublic, values and metadata in those up to Attributes.
#[derive(Clone, Copy, PartialEq, Eq, PartialOrd, Ord)]
pub enum Mode {
    Content,
    // after an ELEMENT's number
    Tag,
    // directly after a header
    First,
    // while only a declaration, comments, PIs and metadata have come
    Prolog,
    AfterDocType,
    AfterSystem,
    AfterPublic,
    // from an ATTRIBUTE to ENDATTRIBUTES
    Attributes,
    // after a CDATA chunk
    Cdata,
    AfterXmlDecl,
    AfterEncoding,
}

// What a token is judged by. `known` names and `qknown` qnames are defined in this document; their rows stand in the
// reader's stacks from `base` and `qbase` on. `elements` are open in this document, `opened` in all.
#[derive(Clone, Copy)]
pub struct View {
    pub at: usize,
    pub mode: Mode,
    pub version: usize,
    pub elements: usize,
    pub opened: usize,
    pub depth: usize,
    pub known: usize,
    pub base: usize,
    pub qknown: usize,
    pub qbase: usize,
    pub names: usize,
    pub qnames: usize,
    pub events: usize,
}

pub fn after_metadata(mode: Mode) -> Mode
    ensures { result ≡ after_metadata mode }
{
    match mode {
        Mode::First | Mode::Prolog => Mode::Prolog,
        Mode::AfterDocType | Mode::AfterSystem | Mode::AfterPublic => Mode::Content,
        _ => mode,
    }
}

pub fn after_misc(mode: Mode) -> Mode
    ensures { result ≡ after_misc mode }
{
    match mode {
        Mode::First | Mode::Prolog => Mode::Prolog,
        _ => Mode::Content,
    }
}

pub fn after_value(mode: Mode) -> Mode
    ensures { result ≡ after_value mode }
{
    match mode {
        Mode::Attributes => Mode::Attributes,
        _ => Mode::Content,
    }
}

// Whether a token of this class may stand at the view's place.
pub fn may_stand(class: Class, v: View) -> bool
    ensures { result ≡ allowed class v }
{
    let mode = v.mode;
    match class {
        Class::Unknown | Class::Encoding => false,
        Class::Value | Class::NameDef | Class::QnameDef => mode <= Mode::Attributes,
        Class::Extension | Class::Flush => mode <= Mode::Attributes,
        Class::LaterValue => mode <= Mode::Attributes && v.version == 2,
        Class::XmlDecl => mode == Mode::First,
        Class::DocType => matches!(mode, Mode::First | Mode::Prolog),
        Class::System => mode == Mode::AfterDocType,
        Class::Public => matches!(mode, Mode::AfterDocType | Mode::AfterSystem),
        Class::Subset => matches!(
            mode,
            Mode::AfterDocType | Mode::AfterSystem | Mode::AfterPublic
        ),
        Class::Element | Class::Pi | Class::Comment | Class::Nest => mode <= Mode::AfterPublic,
        Class::EndElement => mode <= Mode::AfterPublic && 0 < v.elements,
        Class::Attribute => matches!(mode, Mode::Tag | Mode::Attributes),
        Class::EndAttributes => mode == Mode::Attributes,
        Class::Cdata => mode <= Mode::AfterPublic || mode == Mode::Cdata,
        Class::CdataEnd => mode == Mode::Cdata,
        Class::EndNest => mode <= Mode::AfterPublic && 0 < v.depth && v.elements == 0,
    }
}
