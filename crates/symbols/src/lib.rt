// Numbers into the array of a record's meaning, one after the other, with the hash of what was written: single ones, units of a text,
// marks of bytes, and values.
#![tactic(auto)]

ghost use Rattle.std.specs.Prelude.{◌≡◌, ℕ, true, List, [], ◌∷◌, map, ◌+◌, ◌*◌, ◌≤◌, ◌<◌, length};
ghost use Rattle.sequences.specs.Lists.{units_of};
ghost use Rattle.token.specs.Tokens.{shape_of, longest};
ghost use Rattle.rules.specs.Rules.{lawful};
ghost use Rattle.base64_text.specs.Letters.{Alphabet};
ghost use Rattle.plan.specs.Text.{text_of};
ghost use Rattle.plan.specs.Plans.{units_by, NumberFits, PayloadFits};
ghost use Rattle.meaning.specs.Codes.{mark, token_kind, byte_kind};
ghost use Rattle.symbols.specs.Store.{Gives, PutHashed};
ghost use Rattle.symbols.specs.Values.{value_codes, MadeSmall, MadeOfBlob};

use numeral::Small;
use plan::Plan;

// The numbers of the marks that close an attribute and an element, and of the first mark of a value's token and of a byte; `MARK_KINDS` more is the
// next (`mark`, meaning/specs/Codes.antt).
pub const END_MARK: u32 = meaning::FIRST_MARK + meaning::END_KIND;

pub const CLOSING_MARK: u32 = meaning::FIRST_MARK + meaning::CLOSING_KIND;

const TOKEN_MARK: u32 = meaning::FIRST_MARK + meaning::TOKEN_KIND;

const BYTE_MARK: u32 = meaning::FIRST_MARK + meaning::BYTE_KIND;

// The place of the next number, and the hash of the record's numbers before it.
#[derive(Clone, Copy)]
pub struct Cursor {
    pub at: usize,
    pub hash: u64,
}

// ---- numbers into the array

// The next number.
pub fn put_one(syms: &mut [u32], p: Cursor, x: u32) -> Cursor
    requires { p.at < length syms.old }
    ensures { PutHashed syms.old p (x ∷ []) syms.new result }
{
    let at = p.at;
    syms[at] = x;
    Cursor {
        at: at + 1,
        hash: hash::mix(p.hash, x),
    }
}

// The numbers that `number` gives for 0 to count - 1.
fn put_each<F: Fn(usize) -> u32>(count: usize, number: F, syms: &mut [u32], p: Cursor) -> Cursor
    requires room { p.at + count ≤ length syms.old }
    requires called { (k : ℕ) → k < count → F.pre number k }
    ensures { (numbers : List ℕ) → Gives (F.post number) count numbers → PutHashed syms.old p numbers syms.new result }
{
    let mut next = p;
    for k in 0..count {
        next = put_one(syms, next, number(k));
    }
    next
}

// The 16-bit units of a text.
pub fn put_units(src: &[u8], syms: &mut [u32], p: Cursor) -> Cursor
    requires { p.at + length (units_of src.now) ≤ length syms.old }
    ensures { PutHashed syms.old p (units_of src.now) syms.new result }
{
    put_each(
        src.len() / 2,
        |k| u32::from(src[2 * k]) + 256 * u32::from(src[2 * k + 1]),
        syms,
        p,
    )
}

// A mark for each byte.
fn put_bytes(src: &[u8], syms: &mut [u32], p: Cursor) -> Cursor
    requires { p.at + length src.now ≤ length syms.old }
    ensures { PutHashed syms.old p (map (mark byte_kind) src.now) syms.new result }
{
    put_each(
        src.len(),
        |k| BYTE_MARK + meaning::MARK_KINDS * u32::from(src[k]),
        syms,
        p,
    )
}

// ---- values

// A value without text: its mark, and a mark for each byte.
fn put_value(token: u8, payload: &[u8], syms: &mut [u32], p: Cursor) -> Cursor
    requires { p.at + 1 + length payload.now ≤ length syms.old }
    ensures { PutHashed syms.old p (mark token_kind token ∷ map (mark byte_kind) payload.now) syms.new result }
{
    let after = put_one(syms, p, TOKEN_MARK + meaning::MARK_KINDS * u32::from(token));
    put_bytes(payload, syms, after)
}

// A text that is made of a blob, unit by unit. The small buffer is that of a number's text and is not read.
fn put_blob(
    alphabet: &[u8; base64_text::LETTER_COUNT],
    plan: Plan,
    payload: &[u8],
    syms: &mut [u32],
    p: Cursor,
) -> Cursor
    requires { Alphabet alphabet.now × MadeOfBlob plan × PayloadFits plan payload.now
        × (p.at + length (units_by plan payload.now) ≤ length syms.old) }
    ensures { PutHashed syms.old p (units_by plan payload.now) syms.new result }
{
    let small = Small::new();
    put_each(
        units::units(plan, payload, &small),
        |k| u32::from(units::unit(alphabet, plan, payload, &small, k)),
        syms,
        p,
    )
}

// The text of a number or of a truth value: made in a small buffer and taken from there. The payload is named in
// the contract only.
fn put_small(plan: Plan, payload: &[u8], syms: &mut [u32], p: Cursor) -> Cursor
    requires { MadeSmall plan × NumberFits plan × (p.at + length (units_by plan payload.now) ≤ length syms.old) }
    ensures { PutHashed syms.old p (units_by plan payload.now) syms.new result }
{
    let mut small = Small::new();
    units::load(plan, &mut small);
    put_units(small.text(), syms, p)
}

// A value that obeys its token's rule: the units of its text, or its mark and bytes.
pub fn put_payload(
    alphabet: &[u8; base64_text::LETTER_COUNT],
    token: u8,
    payload: &[u8],
    syms: &mut [u32],
    p: Cursor,
) -> Cursor
    requires { Alphabet alphabet.now × (lawful (shape_of token) payload.now ≡ true) × (length payload.now ≤ longest)
        × (p.at + 6 + 5 * length payload.now ≤ length syms.old) }
    ensures { PutHashed syms.old p (value_codes token payload.now (text_of token payload.now)) syms.new result }
{
    let plan = plan::plan_lawful(token, payload);
    match plan {
        Plan::Nothing => put_value(token, payload, syms, p),
        Plan::Payload => put_units(payload, syms, p),
        Plan::Number { .. } | Plan::Boolean(_) => put_small(plan, payload, syms, p),
        Plan::HexDigits | Plan::Base64Letters => put_blob(alphabet, plan, payload, syms, p),
    }
}
