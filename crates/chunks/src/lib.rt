// Numbers of up to 128 bits as chunks of 18 decimal digits, from little-endian bytes.
#![tactic(auto)]

ghost use Rattle.std.specs.Prelude.{◌≡◌, ◌+◌, ◌-◌, ◌/◌, ◌%◌, ◌^◌, ◌≤◌, ◌<◌, length, take, drop, true};
ghost use Rattle.std.proofs.Math.Seq.{slice};
ghost use Rattle.sequences.specs.Lists.{part, little};
ghost use Rattle.chunks.specs.Chunks.{word_size, chunks_value, Chunked, limbs_value, LimbsFit, Divides};

// One more than the largest number of a chunk, of nine digits and of a limb.
const CHUNK: u64 = 1_000_000_000_000_000_000;

const NINE_DIGITS: u64 = 1_000_000_000;

const LIMB: u64 = 4_294_967_296;

// A number: `low` has its last `left` digits, `mid` the 18 above them, `high` the rest.
#[derive(Clone, Copy)]
pub struct Chunks {
    pub low: u64,
    pub mid: u64,
    pub high: u64,
    pub left: usize,
}

// A number of 128 bits in four limbs of 32, the least significant first.
#[derive(Clone, Copy)]
pub struct Limbs {
    a: u64,
    b: u64,
    c: u64,
    d: u64,
}

// The number of the bytes p[from..to], at most eight, the least significant first.
pub fn little_at(p: &[u8], from: usize, to: usize) -> u64
    requires { (from ≤ to) × (to ≤ length p.now) × (to ≤ from + 8) }
    ensures { (result ≡ little (slice from to p.now)) × (result < 256 ^ (to - from)) }
{
    let mut v: u64 = 0;
    for b in p[from..to].iter().rev() {
        v = v * 256 + u64::from(*b);
    }
    v
}

// The number of 1, 2, 4 or 8 bytes, the least significant first.
pub fn word_of(p: &[u8]) -> u64
    requires { word_size (length p.now) ≡ true }
    ensures { (result ≡ little p.now) × (result < 256 ^ length p.now) }
{
    match p {
        [a] => u64::from(*a),
        [a, b] => u64::from(u16::from_le_bytes([*a, *b])),
        [a, b, c, d] => u64::from(u32::from_le_bytes([*a, *b, *c, *d])),
        [a, b, c, d, e, f, g, h] => u64::from_le_bytes([*a, *b, *c, *d, *e, *f, *g, *h]),
        // there is no other size
        _ => 0,
    }
}

// The chunks of a number of 64 bits. Most have at most 18 digits, and then no division is needed.
pub fn of_word(n: u64) -> Chunks
    ensures { (chunks_value result ≡ n) × Chunked result }
{
    if n < CHUNK {
        return Chunks {
            low: n,
            mid: 0,
            high: 0,
            left: 18,
        };
    }
    Chunks {
        low: n % CHUNK,
        mid: n / CHUNK,
        high: 0,
        left: 18,
    }
}

// The number of the four bytes that stand `skip` after `from`, or 0 where p has ended before them.
fn limb_at(p: &[u8], from: usize, skip: usize) -> u64
    requires { (from ≤ length p.now) × (skip < length p.now - from → skip + 4 ≤ length p.now - from) }
    ensures { (result ≡ little (take 4 (drop skip (drop from p.now)))) × (result < 4294967296) }
{
    if skip < p.len() - from {
        return little_at(p, from + skip, from + skip + 4);
    }
    0
}

// The limbs of the number of the bytes of p from `from` on: 4, 8, 12 or 16 of them.
fn limbs_from(p: &[u8], from: usize) -> Limbs
    requires { (from + 4 ≤ length p.now) × (length p.now ≤ from + 16) × ((length p.now - from) % 4 ≡ 0) }
    ensures { (limbs_value result ≡ little (drop from p.now)) × LimbsFit result }
{
    let a = limb_at(p, from, 0);
    let b = limb_at(p, from, 4);
    let c = limb_at(p, from, 8);
    let d = limb_at(p, from, 12);
    Limbs { a, b, c, d }
}

// Quotient and rest by 10^9, limb by limb from the top. A rest below 10^9 and the next limb fit a u64 together.
fn divide(l: Limbs) -> (Limbs, u64)
    requires { LimbsFit l }
    ensures { Divides l result.0 result.1 }
{
    let d = l.d / NINE_DIGITS;
    let x = (l.d % NINE_DIGITS) * LIMB + l.c;
    let c = x / NINE_DIGITS;
    let y = (x % NINE_DIGITS) * LIMB + l.b;
    let b = y / NINE_DIGITS;
    let z = (y % NINE_DIGITS) * LIMB + l.a;
    let a = z / NINE_DIGITS;
    (Limbs { a, b, c, d }, z % NINE_DIGITS)
}

// The chunks of a number of 128 bits: two divisions give the 18 digits of a chunk.
fn of_limbs(l: Limbs) -> Chunks
    requires { LimbsFit l }
    ensures { (chunks_value result ≡ limbs_value l) × Chunked result × (chunks_value result < 10 ^ 39) }
{
    let (q, r) = divide(l);
    let (s, t) = divide(q);
    let (u, v) = divide(s);
    let (w, x) = divide(u);
    Chunks {
        low: r + NINE_DIGITS * t,
        mid: v + NINE_DIGITS * x,
        high: w.a,
        left: 18,
    }
}

// The chunks of the number of the bytes of p from `from` on: 4, 8, 12 or 16 of them, the least significant first.
pub fn of_bytes(p: &[u8], from: usize) -> Chunks
    requires { (from + 4 ≤ length p.now) × (length p.now ≤ from + 16) × ((length p.now - from) % 4 ≡ 0) }
    ensures { (chunks_value result ≡ little (drop from p.now)) × Chunked result × (chunks_value result < 10 ^ 39) }
{
    of_limbs(limbs_from(p, from))
}
