// The text of a number, as at most 41 units of 16 bits (01, "Text of a value"). Numbers of every width become chunks of
// 18 digits first, so that each digit costs one division of a u64.
#![tactic(auto)]

ghost use Rattle.std.specs.Prelude.{◌≡◌, ℕ, List, [], ◌∷◌, ◌++◌, ◌+◌, ◌*◌, ◌/◌, ◌%◌, ◌^◌, ◌≤◌, ◌<◌, length, drop, eqb, not, ◌&&◌};
ghost use Rattle.sequences.specs.Lists.{overlay, bytes_of};
ghost use Rattle.numeral.specs.Numeral.{last_digits, digits, fraction, numeral, truth};
ghost use Rattle.chunks.specs.Chunks.{chunks_value, Chunked};
ghost use Rattle.numeral.specs.Puts.{small_bytes};

use chunks::Chunks;
use std::marker::Model;

// Units and bytes of the small buffer that a text is made in: as many as a number's text has at most.
pub const SMALL_UNITS: usize = 41;

pub const SMALL_BYTES: usize = 82;

// The small buffer. Text is made from the right, since its length is not known before: it stands from byte `at` on. Any place is
// one: past the bytes there is no text.
#[derive(Drop)]
pub struct Small {
    pub bytes: [u8; SMALL_BYTES],
    pub at: usize,
}

impl Model for Small {
    ghost Value = { List ℕ };

    ghost view = { λ s. drop s.at s.bytes };
}

impl Small {
    // A buffer with no text.
    pub fn new() -> Self
        ensures { result ≡ [] }
    {
        Small {
            bytes: [0; SMALL_BYTES],
            at: SMALL_BYTES,
        }
    }

    // Takes the text away.
    pub fn clear(&mut self)
        ensures { self.new ≡ [] }
    {
        self.at = SMALL_BYTES;
    }

    // Puts one unit before the text.
    pub fn put(&mut self, unit: u8)
        requires { length self.old + 2 ≤ small_bytes }
        ensures { self.new ≡ bytes_of (unit ∷ []) ++ self.old }
    {
        let at = self.at.min(SMALL_BYTES) - 2;
        self.bytes[at] = unit;
        self.bytes[at + 1] = 0;
        self.at = at;
    }

    // The bytes of the text.
    pub fn text(&self) -> &[u8]
        ensures { result.now ≡ self.now }
    {
        &self.bytes[self.at.min(SMALL_BYTES)..]
    }

    // Copies the bytes of the text to the front of out.
    pub fn copy_to(&self, out: &mut [u8])
        requires { length self.now ≤ length out.old }
        ensures { out.new ≡ overlay self.now out.old }
    {
        let text = self.text();
        out[..text.len()].copy_from_slice(text);
    }
}

// A number that gives its decimal digits from the last to the first.
pub trait Decimal: Copy {
    ghost value: { Self → ℕ };

    ghost Fits: { Self → Type 0 };

    // The unit of the last digit.
    fn digit(self) -> u8
        requires { Fits self }
        ensures { result ≡ 48 + value self % 10 };

    // The number without its last digit.
    fn tenth(self) -> Self
        requires { Fits self }
        ensures { (value result ≡ value self / 10) × Fits result };

    // Whether the number is 0.
    fn is_zero(self) -> bool
        requires { Fits self }
        ensures { result ≡ eqb (value self) 0 };
}

impl Decimal for u64 {
    ghost value = { λ n. n };

    ghost Fits = { λ n. Unit {0} };

    fn digit(self) -> u8 {
        b'0' + (self % 10) as u8
    }

    fn tenth(self) -> Self {
        self / 10
    }

    fn is_zero(self) -> bool {
        self == 0
    }
}

impl Decimal for Chunks {
    ghost value = { chunks_value };

    ghost Fits = { Chunked };

    fn digit(self) -> u8 {
        b'0' + (self.low % 10) as u8
    }

    // When the lowest chunk has no other digit, the chunks above it move down.
    fn tenth(self) -> Self {
        if self.left == 1 {
            Chunks {
                low: self.mid,
                mid: self.high,
                high: 0,
                left: 18,
            }
        } else {
            Chunks {
                low: self.low / 10,
                left: self.left - 1,
                ..self
            }
        }
    }

    fn is_zero(self) -> bool {
        self.low == 0 && self.mid == 0 && self.high == 0
    }
}

// Puts the last k digits of n before the text; gives the number without them.
pub fn put_last<N: Decimal>(n: N, k: usize, small: &mut Small) -> N
    requires fits { N.Fits n }
    requires room { length small.old + 2 * k ≤ small_bytes }
    ensures put { small.new ≡ bytes_of (last_digits k (N.value n)) ++ small.old }
    ensures left { (N.value result ≡ N.value n / 10 ^ k) × N.Fits result }
{
    let mut v = n;
    for _ in 0..k {
        small.put(v.digit());
        v = v.tenth();
    }
    v
}

// Puts the point and the last k digits of n before the text, or nothing where k is 0; gives the number without them.
pub fn put_fraction<N: Decimal>(n: N, k: usize, small: &mut Small) -> N
    requires fits { N.Fits n }
    requires room { length small.old + 2 * (k + 1) ≤ small_bytes }
    ensures put { small.new ≡ bytes_of (fraction k (N.value n)) ++ small.old }
    ensures left { (N.value result ≡ N.value n / 10 ^ k) × N.Fits result }
{
    let above = put_last(n, k, small);
    if k != 0 {
        small.put(b'.');
    }
    above
}

// Puts all digits of n before the text.
fn put_all<N: Decimal>(n: N, small: &mut Small)
    requires fits { N.Fits n }
    requires room { length small.old + 2 * length (digits (N.value n)) ≤ small_bytes }
    ensures { small.new ≡ bytes_of (digits (N.value n)) ++ small.old }
{
    let mut rest = n;
    loop {
        small.put(rest.digit());
        rest = rest.tenth();
        if rest.is_zero() {
            break;
        }
    }
}

// The same by the shorter of two ways: in a number of one chunk a digit costs one division, and no chunk above it moves.
fn put_whole(n: Chunks, small: &mut Small)
    requires fits { Chunked n }
    requires room { length small.old + 2 * length (digits (chunks_value n)) ≤ small_bytes }
    ensures { small.new ≡ bytes_of (digits (chunks_value n)) ++ small.old }
{
    if n.mid == 0 && n.high == 0 {
        put_all(n.low, small);
    } else {
        put_all(n, small);
    }
}

// Whether a minus is written: zero has none.
fn has_minus(minus: bool, n: Chunks) -> bool
    requires { Chunked n }
    ensures { result ≡ (minus && not (eqb (chunks_value n) 0)) }
{
    minus && !n.is_zero()
}

// Makes the text of n / 10^scale in small, below zero where `minus` says so.
pub fn render(minus: bool, n: Chunks, scale: usize, small: &mut Small)
    requires { Chunked n × (scale ≤ 38) × (chunks_value n < 10 ^ 39) }
    ensures { small.new ≡ bytes_of (numeral minus (chunks_value n) scale) }
{
    small.clear();
    let above = put_fraction(n, scale, small);
    put_whole(above, small);
    if has_minus(minus, n) {
        small.put(b'-');
    }
}

// Puts ASCII letters before the text.
fn put_letters(letters: &[u8], small: &mut Small)
    requires { length small.old + 2 * length letters.now ≤ small_bytes }
    ensures { small.new ≡ bytes_of letters.now ++ small.old }
{
    for letter in letters.iter().rev() {
        small.put(*letter);
    }
}

// Makes the text "true" or "false" in small.
pub fn render_truth(yes: bool, small: &mut Small)
    ensures { small.new ≡ bytes_of (truth yes) }
{
    small.clear();
    put_letters(if yes { b"true" } else { b"false" }, small);
}
