// The tokens of the format: each token's class and the shape of its payload, by one table of 256 entries, indexed by the
// token byte (004, section 2; 01, "Document rules"). Also the limits and the answer numbers, by name.
#![tactic(auto)]

ghost use Rattle.std.specs.Prelude.{◌≡◌};
ghost use Rattle.token.specs.Tokens.{class_of, shape_of};
ghost use Rattle.token.specs.Entries.{Listed, class_in, shape_in};
ghost use Rattle.token.specs.Fixed.{fixed_by, fixed_of};
ghost use Rattle.token.specs.Faults.{number_of};

mod entries;

pub use entries::table;

// Numbers of each table at its full bounds.
pub const NAME_TABLE: usize = NAME_WIDTH * NAME_ROWS;

pub const QNAME_TABLE: usize = QNAME_WIDTH * QNAME_ROWS;

pub const EVENT_TABLE: usize = EVENT_WIDTH * EVENT_ROWS;

// The bounds of 01, "Numbers that bound the work".
pub const LONGEST: usize = 65536;

pub const NAME_ROWS: usize = 1024;

pub const QNAME_ROWS: usize = 1024;

pub const EVENT_ROWS: usize = 4096;

pub const OPEN_ELEMENTS: usize = 64;

pub const NESTED_DOCUMENTS: usize = 8;

// Numbers in one row of each table (01, "Rows").
pub const NAME_WIDTH: usize = 2;

pub const QNAME_WIDTH: usize = 3;

pub const EVENT_WIDTH: usize = 4;

// The largest multi-byte number (01, "Document rules").
pub const LARGEST: usize = 2147483647;

// Bytes of a number, at most (004, section 2.3.2).
pub const MB32: usize = 5;

pub const MB64: usize = 10;

// The codes of the tokens that are no values, and of XSD-QNAME, by 004's names.
pub const ENCODING_TOKEN: u8 = 0xFD;

pub const ELEMENT_TOKEN: u8 = 0xF8;

pub const ENDELEMENT_TOKEN: u8 = 0xF7;

pub const ATTRIBUTE_TOKEN: u8 = 0xF6;

pub const ENDATTRIBUTES_TOKEN: u8 = 0xF5;

pub const PI_TOKEN: u8 = 0xF4;

pub const CDATA_TOKEN: u8 = 0xF2;

pub const NAMEDEF_TOKEN: u8 = 0xF0;

pub const QNAMEDEF_TOKEN: u8 = 0xEF;

pub const NEST_TOKEN: u8 = 0xEC;

pub const ENDNEST_TOKEN: u8 = 0xEB;

pub const XSD_QNAME: u8 = 0x8C;

// 01, "Answer numbers": those that an answer has without a refusal's fault beside it.
pub const ACCEPTED: u32 = 0;

pub const TOO_LONG: u32 = 1;

pub const NO_ROOM: u32 = 10;

pub const NO_PAIRS: u32 = 11;

pub const NO_TEXT: u32 = 12;

pub const FORM_TOO_LONG: u32 = 13;

// Why a job refuses, by the number of 01, "Answer numbers".
#[derive(Clone, Copy, Debug, PartialEq, Eq)]
pub enum Fault {
    TooLong = 1,
    Missing,
    BadHeader,
    BadNumber,
    BadToken,
    NotDefined,
    BadValue,
    TooDeep,
    NoRow,
    NoRoom,
    NoPairs,
    NoText,
    FormTooLong,
}

impl Fault {
    pub fn number(self) -> u32
        ensures { result ≡ number_of self }
    {
        self as u32
    }
}

// A refusal: why, and the place or count that stands beside it.
#[derive(Clone, Copy, Debug, PartialEq, Eq)]
pub struct Refusal {
    pub fault: Fault,
    pub place: usize,
}

// A name's number and a qname's number, counted apart in each document. Two types, so that neither is taken for the other.
#[derive(Clone, Copy)]
pub struct NameNumber(pub usize);

#[derive(Clone, Copy)]
pub struct QnameNumber(pub usize);

// What a token byte is. A value of version 2 has a class of its own, and so has a byte that is no token: as None it would be an arm more
// in each match all the same.
#[derive(Clone, Copy)]
pub enum Class {
    Unknown,
    Value,
    LaterValue,
    XmlDecl,
    Encoding,
    DocType,
    System,
    Public,
    Subset,
    Element,
    EndElement,
    Attribute,
    EndAttributes,
    Pi,
    Comment,
    Cdata,
    CdataEnd,
    NameDef,
    QnameDef,
    Nest,
    EndNest,
    Extension,
    Flush,
}

// What follows a token as its payload.
#[derive(Clone, Copy)]
pub enum Shape {
    // no payload: nothing follows, or fields that are read one by one. A shape as the others: its rule is that the payload is empty
    Nothing,
    // so many bytes
    Fixed(usize),
    // a length in 16-bit units, in a number of at most so many bytes; then the text
    Text(usize),
    // a length in bytes, in a number of at most so many bytes; then the bytes
    Blob(usize),
    // as a blob, whose first four bytes are the code page's number
    CodePage(usize),
    // a length in bytes, then precision, scale, sign and value
    Decimal,
    // the number of a qname
    Qname,
    // eight bytes whose low two bits are this number
    Stamp(usize),
    // a day number of three bytes, from first to last
    Date { first: usize, last: usize },
    // precision, time, and a day number from first to last
    Time { first: usize, last: usize },
    // the same, then a time zone
    ZonedTime { first: usize, last: usize },
}

fn class_from(entry: u16) -> Class
    ensures { result ≡ class_in entry }
{
    match entry / 32 {
        1 => Class::Value,
        2 => Class::LaterValue,
        3 => Class::XmlDecl,
        4 => Class::Encoding,
        5 => Class::DocType,
        6 => Class::System,
        7 => Class::Public,
        8 => Class::Subset,
        9 => Class::Element,
        10 => Class::EndElement,
        11 => Class::Attribute,
        12 => Class::EndAttributes,
        13 => Class::Pi,
        14 => Class::Comment,
        15 => Class::Cdata,
        16 => Class::CdataEnd,
        17 => Class::NameDef,
        18 => Class::QnameDef,
        19 => Class::Nest,
        20 => Class::EndNest,
        21 => Class::Extension,
        22 => Class::Flush,
        _ => Class::Unknown,
    }
}

fn shape_from(entry: u16) -> Shape
    ensures { result ≡ shape_in entry }
{
    match entry % 32 {
        1 => Shape::Fixed(1),
        2 => Shape::Fixed(2),
        3 => Shape::Fixed(4),
        4 => Shape::Fixed(8),
        5 => Shape::Fixed(16),
        6 => Shape::Text(MB32),
        7 => Shape::Text(MB64),
        8 => Shape::Blob(MB32),
        9 => Shape::Blob(MB64),
        10 => Shape::CodePage(MB32),
        11 => Shape::CodePage(MB64),
        12 => Shape::Decimal,
        13 => Shape::Qname,
        14 => Shape::Stamp(0),
        15 => Shape::Stamp(1),
        16 => Shape::Stamp(2),
        17 => Shape::Date {
            first: 0,
            last: 3652058,
        },
        18 => Shape::Time {
            first: 693595,
            last: 693595,
        },
        19 => Shape::Time {
            first: 0,
            last: 3652058,
        },
        20 => Shape::ZonedTime {
            first: 0,
            last: 3652058,
        },
        21 => Shape::ZonedTime {
            first: 0,
            last: 16777215,
        },
        _ => Shape::Nothing,
    }
}

// The keys are the class of a value, 1, times 32, plus the shape's number.
fn fixed_from(entry: u16) -> usize
    ensures { result ≡ fixed_by (class_in entry) (shape_in entry) }
{
    match entry {
        33 => 1,
        34 => 2,
        35 => 4,
        36 => 8,
        37 => 16,
        _ => 0,
    }
}

// The class of a token byte.
pub fn class_at(table: &[u16; 256], token: u8) -> Class
    requires { Listed table.now }
    ensures { result ≡ class_of token }
{
    class_from(table[token as usize])
}

// The shape of a token's payload.
pub fn shape_at(table: &[u16; 256], token: u8) -> Shape
    requires { Listed table.now }
    ensures { result ≡ shape_of token }
{
    shape_from(table[token as usize])
}

// The size in bytes of a token's payload, where the token is a value of every version that has always the same size; 0
// for every other token. One look at the entry spares the two of a class and a shape.
pub fn fixed_at(table: &[u16; 256], token: u8) -> usize
    requires { Listed table.now }
    ensures { result ≡ fixed_of token }
{
    fixed_from(table[token as usize])
}
