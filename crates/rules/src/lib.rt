// The value rules (01, "Document rules"): whether a payload obeys the rule of its shape.
#![tactic(auto)]

ghost use Rattle.std.specs.Prelude.{◌≡◌, ◌+◌, ◌≤◌, ◌<◌, length};
ghost use Rattle.sequences.specs.Lists.{part};
ghost use Rattle.rules.specs.Rules.{decimal_size, decimal_lawful, time_bytes, day_within, zone_lawful, time_lawful, zoned_lawful, lawful};

use token::Shape;

#[tactic(auto, using(sequences::proofs::Tests::tests), unfolding(crate::specs::Rules::decimal_size))]
pub fn decimal_size(n: usize) -> bool
    ensures { result ≡ decimal_size n }
{
    matches!(n, 7 | 11 | 15 | 19)
}

#[tactic(auto, using(sequences::proofs::Tests::tests), unfolding(crate::specs::Rules::time_bytes))]
pub fn time_bytes(precision: u8) -> usize
    ensures { (result ≡ time_bytes precision) × (3 ≤ result) × (result ≤ 5) }
{
    match precision {
        0..=2 => 3,
        3 | 4 => 4,
        _ => 5,
    }
}

// ---- the value rules

#[tactic(auto, using(sequences::proofs::Tests::tests, crate::proofs::Rules::decimal_long), unfolding(crate::specs::Rules::decimal_lawful))]
fn decimal_lawful(p: &[u8]) -> bool
    ensures { result ≡ decimal_lawful p.now }
{
    decimal_size(p.len()) && p[0] <= 38 && p[1] <= p[0] && p[2] <= 1
}

// Three bytes from a place on, as a day number within two bounds.
#[tactic(auto, using(sequences::proofs::Tests::tests, crate::proofs::Rules::little_three), unfolding(crate::specs::Rules::day_within))]
fn day_within(first: usize, last: usize, p: &[u8], at: usize) -> bool
    requires { at + 3 ≤ length p.now }
    ensures { result ≡ day_within first last (part p.now at 3) }
{
    let day = u32::from_le_bytes([p[at], p[at + 1], p[at + 2], 0]) as usize;
    first <= day && day <= last
}

#[tactic(auto, using(sequences::proofs::Tests::tests, crate::proofs::Rules::little_two), unfolding(crate::specs::Rules::zone_lawful))]
fn zone_lawful(p: &[u8], at: usize) -> bool
    requires { at + 2 ≤ length p.now }
    ensures { result ≡ zone_lawful (part p.now at 2) }
{
    let zone = u16::from_le_bytes([p[at], p[at + 1]]);
    zone <= 840 || 64696 <= zone
}

#[tactic(auto, using(sequences::proofs::Tests::tests), unfolding(crate::specs::Rules::lawful))]
fn stamp_lawful(low: usize, p: &[u8]) -> bool
    ensures { result ≡ lawful (Shape.Stamp low) p.now }
{
    p.len() == 8 && usize::from(p[0]) % 4 == low
}

#[tactic(auto, using(sequences::proofs::Tests::tests, crate::proofs::Rules::whole_three), unfolding(crate::specs::Rules::lawful))]
fn date_lawful(first: usize, last: usize, p: &[u8]) -> bool
    ensures { result ≡ lawful (Shape.Date first last) p.now }
{
    p.len() == 3 && day_within(first, last, p, 0)
}

// A time with `more` bytes after it, of which the first three are its date.
#[tactic(auto, using(sequences::proofs::Tests::tests, crate::proofs::Rules::time_empty), unfolding(crate::specs::Rules::time_lawful))]
fn time_lawful(more: usize, first: usize, last: usize, p: &[u8]) -> bool
    requires { (3 ≤ more) × (more ≤ 5) }
    ensures { result ≡ time_lawful more first last p.now }
{
    if p.is_empty() || 7 < p[0] {
        return false;
    }
    let day = 1 + time_bytes(p[0]);
    p.len() == day + more && day_within(first, last, p, day)
}

#[tactic(auto, using(crate::proofs::Rules::time_long, crate::proofs::Rules::zoned_time, crate::proofs::Rules::zoned_zone), unfolding(crate::specs::Rules::zoned_lawful))]
fn zoned_lawful(first: usize, last: usize, p: &[u8]) -> bool
    ensures { result ≡ zoned_lawful first last p.now }
{
    time_lawful(5, first, last, p) && zone_lawful(p, p.len() - 2)
}

// Whether a payload obeys the rules of its shape, its size among them.
#[tactic(auto, unfolding(crate::specs::Rules::lawful))]
pub fn obeys(shape: Shape, p: &[u8]) -> bool
    ensures { result ≡ lawful shape p.now }
{
    match shape {
        Shape::Nothing => p.is_empty(),
        Shape::Fixed(size) => p.len() == size,
        Shape::Text(_) => p.len() % 2 == 0,
        Shape::Blob(_) => true,
        Shape::CodePage(_) => 4 <= p.len(),
        Shape::Decimal => decimal_lawful(p),
        Shape::Qname => false,
        Shape::Stamp(low) => stamp_lawful(low, p),
        Shape::Date { first, last } => date_lawful(first, last, p),
        Shape::Time { first, last } => time_lawful(3, first, last, p),
        Shape::ZonedTime { first, last } => zoned_lawful(first, last, p),
    }
}
