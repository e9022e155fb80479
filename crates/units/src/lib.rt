// The text of a value as a stream of 16-bit units, from its plan: how many there are, and unit k.
#![tactic(auto)]

ghost use Rattle.std.specs.Prelude.{◌≡◌, ◌+◌, ◌*◌, ◌≤◌, ◌<◌, length, get_or};
ghost use Rattle.numeral.specs.Numeral.{numeral};
ghost use Rattle.base64_text.specs.Base64.{base64};
ghost use Rattle.base64_text.specs.Letters.{Alphabet};
ghost use Rattle.plan.specs.Plans.{units_by, NumberFits, PayloadFits};
ghost use Rattle.units.specs.Units.{UnitsBegin, Loaded};

use numeral::Small;
use plan::Plan;

// ---- a text unit by unit

// Makes the text of a number or of a truth value in small.
pub fn load(plan: Plan, small: &mut Small)
    requires { NumberFits plan }
    ensures { Loaded plan small.new }
{
    match plan {
        Plan::Number { minus, size, scale } => numeral::render(minus, size, scale, small),
        Plan::Boolean(yes) => numeral::render_truth(yes, small),
        _ => {}
    }
}

// How many units the text has; `small` is as `load` left it.
pub fn units(plan: Plan, payload: &[u8], small: &Small) -> usize
    requires { PayloadFits plan payload.now × UnitsBegin plan small.now }
    ensures { result ≡ length (units_by plan payload.now) }
{
    match plan {
        Plan::Nothing => 0,
        Plan::Payload => payload.len() / 2,
        Plan::Number { .. } | Plan::Boolean(_) => small.text().len() / 2,
        Plan::HexDigits => 2 * payload.len(),
        Plan::Base64Letters => (payload.len() + 2) / 3 * 4,
    }
}

// The unit of two bytes, the low one first.
fn unit_of(p: &[u8], at: usize) -> u16
    requires { at + 1 < length p.now }
    ensures { result ≡ get_or p.now at 0 + 256 * get_or p.now (at + 1) 0 }
{
    u16::from_le_bytes([p[at], p[at + 1]])
}

// Unit k of the text, in constant time; `alphabet` is that of Base64, and `small` is as `load` left it.
pub fn unit(
    alphabet: &[u8; base64_text::LETTER_COUNT],
    plan: Plan,
    payload: &[u8],
    small: &Small,
    k: usize,
) -> u16
    requires { Alphabet alphabet.now × PayloadFits plan payload.now × Loaded plan small.now
        × (k < length (units_by plan payload.now)) }
    ensures { result ≡ get_or (units_by plan payload.now) k 0 }
{
    match plan {
        Plan::Nothing => 0,
        Plan::Payload => unit_of(payload, 2 * k),
        Plan::Number { .. } | Plan::Boolean(_) => unit_of(small.text(), 2 * k),
        Plan::HexDigits => hexadecimal::hex_unit(payload, k),
        Plan::Base64Letters => base64_text::base64_unit(alphabet, payload, k),
    }
}
