// What is to be written for a value: its token's kind of text, and from it and the payload a plan (01, "Text of a value").
#![tactic(auto)]

ghost use Rattle.std.specs.Prelude.{◌≡◌, false, true, ◌+◌, ◌^◌, ◌≤◌, ◌<◌, length};
ghost use Rattle.token.specs.Entries.{Listed};
ghost use Rattle.token.specs.Tokens.{shape_of, longest};
ghost use Rattle.rules.specs.Rules.{lawful};
ghost use Rattle.chunks.specs.Chunks.{word_size};
ghost use Rattle.plan.specs.Text.{kind_of, shown, text_of, is_same};
ghost use Rattle.plan.specs.Plans.{Ruled, Means};

use chunks::Chunks;

// How the text of a token's values is made.
#[derive(Clone, Copy)]
pub enum Kind {
    // no text
    Unshown,
    // the payload itself
    Same,
    // a signed number, with so many digits after the point
    Signed(usize),
    Unsigned,
    // "true" or "false"
    Truth,
    // precision, scale, sign, and a number
    Decimal,
    Hex,
    Base64,
}

// What is to be written for a value.
#[derive(Clone, Copy)]
pub enum Plan {
    // it has no text
    Nothing,
    // its payload
    Payload,
    // a number, with so many digits after the point
    Number {
        minus: bool,
        size: Chunks,
        scale: usize,
    },
    // "true" or "false"
    Boolean(bool),
    // its payload in hexadecimal, or in Base64
    HexDigits,
    Base64Letters,
}

// ---- the plan

// The kind of a token's text.
#[tactic(auto, using(crate::proofs::Rules::signed_codes, crate::proofs::Rules::money_codes, crate::proofs::Rules::unsigned_codes, crate::proofs::Rules::decimal_codes, crate::proofs::Rules::base64_codes, crate::proofs::Rules::same_codes, crate::proofs::Rules::hex_codes, crate::proofs::Rules::truth_codes, crate::proofs::Rules::unlisted))]
fn kind_of(token: u8) -> Kind
    ensures { result ≡ kind_of token }
{
    match token {
        0x01 | 0x02 | 0x08 | 0x88 => Kind::Signed(0),
        0x05 | 0x14 => Kind::Signed(4),
        0x06 | 0x07 | 0x89 | 0x8A | 0x8B => Kind::Unsigned,
        0x0A | 0x0B | 0x87 => Kind::Decimal,
        0x0C | 0x0F | 0x17 | 0x1B | 0x85 => Kind::Base64,
        0x0E | 0x11 | 0x18 => Kind::Same,
        0x84 => Kind::Hex,
        0x86 => Kind::Truth,
        _ => Kind::Unshown,
    }
}

// Half of 256 ^ width: the first number of so many bytes that is below zero.
fn half_of(width: usize) -> u64
    requires { word_size width ≡ true }
    ensures { result + result ≡ 256 ^ width }
{
    match width {
        1 => 128,
        2 => 32768,
        4 => 2147483648,
        _ => 9223372036854775808,
    }
}

// The plan of a signed number.
fn signed(p: &[u8], scale: usize) -> Plan
    requires { Ruled (Kind.Signed scale) p.now }
    ensures { Means (shown (Kind.Signed scale) p.now) false p.now result }
{
    let value = chunks::word_of(p);
    let half = half_of(p.len());
    if half <= value {
        let size = chunks::of_word(half - (value - half));
        return Plan::Number {
            minus: true,
            size,
            scale,
        };
    }
    let size = chunks::of_word(value);
    Plan::Number {
        minus: false,
        size,
        scale,
    }
}

// The plan of an unsigned number.
fn unsigned(p: &[u8]) -> Plan
    requires { Ruled Kind.Unsigned p.now }
    ensures { Means (shown Kind.Unsigned p.now) false p.now result }
{
    let size = chunks::of_word(chunks::word_of(p));
    Plan::Number {
        minus: false,
        size,
        scale: 0,
    }
}

// The plan of a truth value.
fn boolean(p: &[u8]) -> Plan
    requires { Ruled Kind.Truth p.now }
    ensures { Means (shown Kind.Truth p.now) false p.now result }
{
    Plan::Boolean(p[0] != 0)
}

// The plan of a decimal.
fn decimal(p: &[u8]) -> Plan
    requires { Ruled Kind.Decimal p.now }
    ensures { Means (shown Kind.Decimal p.now) false p.now result }
{
    let size = chunks::of_bytes(p, 3);
    Plan::Number {
        minus: p[2] == 0,
        size,
        scale: p[1] as usize,
    }
}

// The plan of a payload that obeys its token's rule.
fn plan_kind(kind: Kind, p: &[u8]) -> Plan
    requires { Ruled kind p.now × (length p.now ≤ longest) }
    ensures { Means (shown kind p.now) (is_same kind) p.now result }
{
    match kind {
        Kind::Unshown => Plan::Nothing,
        Kind::Same => Plan::Payload,
        Kind::Signed(scale) => signed(p, scale),
        Kind::Unsigned => unsigned(p),
        Kind::Truth => boolean(p),
        Kind::Decimal => decimal(p),
        Kind::Hex => Plan::HexDigits,
        Kind::Base64 => Plan::Base64Letters,
    }
}

// The plan of a payload that is known to obey its token's rule and not to be too long: neither is tested again.
pub fn plan_lawful(token: u8, payload: &[u8]) -> Plan
    requires { (lawful (shape_of token) payload.now ≡ true) × (length payload.now ≤ longest) }
    ensures { Means (text_of token payload.now) (is_same (kind_of token)) payload.now result }
{
    plan_kind(kind_of(token), payload)
}

// The plan of a token's payload; `table` is the table of tokens, made once and lent.
pub fn plan_at(table: &[u16; 256], token: u8, payload: &[u8]) -> Plan
    requires { Listed table.now }
    ensures { Means (text_of token payload.now) (is_same (kind_of token)) payload.now result }
{
    if token::LONGEST < payload.len() {
        return Plan::Nothing;
    }
    if rules::obeys(token::shape_at(table, token), payload) {
        return plan_lawful(token, payload);
    }
    Plan::Nothing
}
