// The text of a blob in Base64 with padding, as 16-bit units (004, 2.3.16).
#![tactic(auto)]

ghost use Rattle.std.specs.Prelude.{◌≡◌, [], ◌∷◌, ◌+◌, ◌-◌, ◌*◌, ◌/◌, ◌≤◌, ◌<◌, length, take, drop, get_or};
ghost use Rattle.std.proofs.lemmas.List.Edits.{sets};
ghost use Rattle.sequences.specs.Lists.{overlay, bytes_of};
ghost use Rattle.base64_text.specs.Base64.{letter, base64};
ghost use Rattle.base64_text.specs.Letters.{Alphabet};
ghost use Rattle.token.specs.Tokens.{longest};

// The letters of Base64.
pub const LETTER_COUNT: usize = 64;

// The alphabet of Base64 (RFC 3548, section 3).
const LETTERS: [u8; LETTER_COUNT] =
    *b"ABCDEFGHIJKLMNOPQRSTUVWXYZabcdefghijklmnopqrstuvwxyz0123456789+/";

// The table of the alphabet: made once by a caller, and lent to each use.
pub fn alphabet() -> [u8; LETTER_COUNT]
    ensures { Alphabet result }
{
    LETTERS
}

// The letter of a number below 64.
fn letter_of(t: &[u8; LETTER_COUNT], v: u8) -> u8
    requires { Alphabet t.now × (v < 64) }
    ensures { result ≡ letter v }
{
    t[usize::from(v)]
}

// The byte at `i`, or 0 past the end.
fn byte_or_zero(p: &[u8], i: usize) -> u8
    ensures { result ≡ get_or p.now i 0 }
{
    p.get(i).copied().unwrap_or(0)
}

// Stores four ASCII characters as units, from byte `at` on.
fn put_four(out: &mut [u8], at: usize, w: u8, x: u8, y: u8, z: u8)
    requires { at + 7 < length out.old }
    ensures { out.new ≡ sets out.old at (bytes_of (w ∷ x ∷ y ∷ z ∷ [])) }
{
    out[at] = w;
    out[at + 1] = 0;
    out[at + 2] = x;
    out[at + 3] = 0;
    out[at + 4] = y;
    out[at + 5] = 0;
    out[at + 6] = z;
    out[at + 7] = 0;
}

// Stores the Base64 text of one byte, with two letters and two `=`, from byte `at` on.
fn put_one(t: &[u8; LETTER_COUNT], out: &mut [u8], at: usize, a: u8)
    requires { Alphabet t.now × (at + 7 < length out.old) }
    ensures { out.new ≡ sets out.old at (bytes_of (base64 (a ∷ []))) }
{
    let w = letter_of(t, a / 4);
    let x = letter_of(t, a % 4 * 16);
    put_four(out, at, w, x, b'=', b'=');
}

// Stores the Base64 text of two bytes, with three letters and one `=`, from byte `at` on.
fn put_pair(t: &[u8; LETTER_COUNT], out: &mut [u8], at: usize, a: u8, b: u8)
    requires { Alphabet t.now × (at + 7 < length out.old) }
    ensures { out.new ≡ sets out.old at (bytes_of (base64 (a ∷ b ∷ []))) }
{
    let w = letter_of(t, a / 4);
    let x = letter_of(t, a % 4 * 16 + b / 16);
    let y = letter_of(t, b % 16 * 4);
    put_four(out, at, w, x, y, b'=');
}

// Stores the Base64 text of three bytes, with four letters, from byte `at` on.
fn put_three(t: &[u8; LETTER_COUNT], out: &mut [u8], at: usize, a: u8, b: u8, c: u8)
    requires { Alphabet t.now × (at + 7 < length out.old) }
    ensures { out.new ≡ sets out.old at (bytes_of (base64 (a ∷ b ∷ c ∷ []))) }
{
    let w = letter_of(t, a / 4);
    let x = letter_of(t, a % 4 * 16 + b / 16);
    let y = letter_of(t, b % 16 * 4 + c / 64);
    let z = letter_of(t, c % 64);
    put_four(out, at, w, x, y, z);
}

// Writes the Base64 text of the first `n` groups of three bytes to the front of `out`.
fn put_groups(t: &[u8; LETTER_COUNT], p: &[u8], out: &mut [u8], n: usize)
    requires { Alphabet t.now × (3 * n ≤ length p.now) × (8 * n ≤ length out.old) }
    ensures { out.new ≡ sets out.old 0 (bytes_of (base64 (take (3 * n) p.now))) }
{
    for k in 0..n {
        put_three(t, out, 8 * k, p[3 * k], p[3 * k + 1], p[3 * k + 2]);
    }
}

// Writes the Base64 text of the one or two bytes from byte `i` on, if there are any, from byte `at` on.
fn put_last(t: &[u8; LETTER_COUNT], p: &[u8], out: &mut [u8], i: usize, at: usize)
    requires { Alphabet t.now × (i ≤ length p.now) × (length p.now < i + 3)
        × (at + (length p.now - i + 2) / 3 * 8 ≤ length out.old) }
    ensures { out.new ≡ sets out.old at (bytes_of (base64 (drop i p.now))) }
{
    if i == p.len() {
        return;
    }
    if i + 1 == p.len() {
        put_one(t, out, at, p[i]);
        return;
    }
    put_pair(t, out, at, p[i], p[i + 1]);
}

// Writes the Base64 text of `p` as UTF-16LE to the front of `out`; what stands past it stays.
pub fn base64_into(p: &[u8], out: &mut [u8])
    requires { (length p.now ≤ longest) × ((length p.now + 2) / 3 * 8 ≤ length out.old) }
    ensures { out.new ≡ overlay (bytes_of (base64 p.now)) out.old }
{
    let t = alphabet();
    let n = p.len() / 3;
    put_groups(&t, p, out, n);
    put_last(&t, p, out, 3 * n, 8 * n);
}

// Character `k` of the Base64 text of `p`: a letter of the three bytes of its group, or `=` past the end of `p`.
fn base64_char(t: &[u8; LETTER_COUNT], p: &[u8], k: usize) -> u8
    requires { Alphabet t.now × (k < (length p.now + 2) / 3 * 4) × (length p.now ≤ longest) }
    ensures { result ≡ get_or (base64 p.now) k 0 }
{
    let i = k / 4 * 3;
    let a = byte_or_zero(p, i);
    let b = byte_or_zero(p, i + 1);
    let c = byte_or_zero(p, i + 2);
    match k % 4 {
        0 => letter_of(t, a / 4),
        1 => letter_of(t, a % 4 * 16 + b / 16),
        2 => {
            if i + 1 < p.len() {
                return letter_of(t, b % 16 * 4 + c / 64);
            }
            b'='
        }
        _ => {
            if i + 2 < p.len() {
                return letter_of(t, c % 64);
            }
            b'='
        }
    }
}

// Unit `k` of the Base64 text of `p`, in constant time; `t` is the table of the alphabet.
pub fn base64_unit(t: &[u8; LETTER_COUNT], p: &[u8], k: usize) -> u16
    requires { Alphabet t.now × (k < (length p.now + 2) / 3 * 4) × (length p.now ≤ longest) }
    ensures { result ≡ get_or (base64 p.now) k 0 }
{
    u16::from(base64_char(t, p, k))
}
