// The text of a blob in upper-case hexadecimal, as 16-bit units (004, 2.3.17).
#![tactic(auto)]

ghost use Rattle.std.specs.Prelude.{◌≡◌, [], ◌∷◌, ◌+◌, ◌-◌, ◌*◌, ◌/◌, ◌≤◌, ◌<◌, length, get_or};
ghost use Rattle.std.proofs.lemmas.List.Edits.{sets};
ghost use Rattle.sequences.specs.Lists.{overlay, bytes_of};
ghost use Rattle.hexadecimal.specs.Hexadecimal.{hex_digit, hex};
ghost use Rattle.token.specs.Tokens.{longest};

// The hexadecimal digit of a number below 16.
pub fn hex_digit(d: u8) -> u8
    requires { d < 16 }
    ensures { result ≡ hex_digit d }
{
    48 + d + d / 10 * 7
}

// Stores two ASCII characters as units, from byte `at` on.
fn put_two(out: &mut [u8], at: usize, w: u8, x: u8)
    requires { at + 3 < length out.old }
    ensures { out.new ≡ sets out.old at (bytes_of (w ∷ x ∷ [])) }
{
    out[at] = w;
    out[at + 1] = 0;
    out[at + 2] = x;
    out[at + 3] = 0;
}

// Stores the hexadecimal text of one byte, from byte `at` on.
fn put_byte(out: &mut [u8], at: usize, b: u8)
    requires { at + 3 < length out.old }
    ensures { out.new ≡ sets out.old at (bytes_of (hex (b ∷ []))) }
{
    let w = hex_digit(b / 16);
    let x = hex_digit(b % 16);
    put_two(out, at, w, x);
}

// Writes the hexadecimal text of `p` as UTF-16LE to the front of `out`; what stands past it stays.
pub fn hex_into(p: &[u8], out: &mut [u8])
    requires { (length p.now ≤ longest) × (4 * length p.now ≤ length out.old) }
    ensures { out.new ≡ overlay (bytes_of (hex p.now)) out.old }
{
    for (i, b) in p.iter().enumerate() {
        put_byte(out, 4 * i, *b);
    }
}

// Unit `k` of the hexadecimal text of `p`, in constant time.
pub fn hex_unit(p: &[u8], k: usize) -> u16
    requires { k < 2 * length p.now }
    ensures { result ≡ get_or (hex p.now) k 0 }
{
    let b = p[k / 2];
    let d = if k % 2 == 0 { b / 16 } else { b % 16 };
    u16::from(hex_digit(d))
}
