// Multi-byte numbers: seven bits a byte, the least significant first; the first byte below 80 hex ends the number
// (004, section 2.3.2; 01, "Document rules").
#![tactic(auto)]

ghost use Rattle.std.specs.Prelude.{◌≡◌, ◌+◌, ◌*◌, ◌≤◌, ◌<◌, min, length};
ghost use Rattle.number.specs.Number.{number_at, size_of};
ghost use Rattle.number.specs.Bounds.{Within, over_largest, scale_end};
ghost use Rattle.token.specs.Tokens.{largest};

use token::{Fault, Refusal};

// One past the largest value; and what a one counts past the bytes of any such value.
const OVER_LARGEST: usize = token::LARGEST + 1;

const SCALE_END: usize = 34359738368;

// A number that was read: its value, and the place after it.
#[derive(Clone, Copy)]
pub struct Number {
    pub value: usize,
    pub next: usize,
}

// The value with seven bits more, or one past the largest value where it is over that: so no length of a number wraps.
fn grown(value: usize, scale: usize, bits: usize) -> usize
    requires { (value ≤ over_largest) × (scale ≤ scale_end) × (bits < 128) }
    ensures { result ≡ min (value + bits * scale) over_largest }
{
    let sum = value + bits * scale;
    sum.min(OVER_LARGEST)
}

// What a one in the next byte counts, or a number whose every multiple is over the largest value.
fn raised(scale: usize) -> usize
    requires { scale ≤ scale_end }
    ensures { result ≡ min (scale * 128) scale_end }
{
    (scale * 128).min(SCALE_END)
}

// The number of at most `most` bytes at a place: its value and the place after it, or 2 at the document's length,
// or 4 at the number's first byte.
pub fn read(doc: &[u8], at: usize, most: usize) -> Result<Number, Refusal>
    ensures { (result ≡ number_at most doc.now at) × Within (length doc.now) at result }
{
    let mut value: usize = 0;
    let mut scale: usize = 1;
    let mut next = at;
    let mut left = most;
    loop {
        if left == 0 {
            break Err(Refusal {
                fault: Fault::BadNumber,
                place: at,
            });
        }
        if doc.len() <= next {
            break Err(Refusal {
                fault: Fault::Missing,
                place: doc.len(),
            });
        }
        let b = usize::from(doc[next]);
        value = grown(value, scale, b % 128);
        next += 1;
        if b < 128 {
            if token::LARGEST < value {
                break Err(Refusal {
                    fault: Fault::BadNumber,
                    place: at,
                });
            }
            break Ok(Number { value, next });
        }
        scale = raised(scale);
        left -= 1;
    }
}

// The bytes of the shortest spelling of a value.
pub fn size(value: usize) -> usize
    ensures { (result ≡ size_of value) × (1 ≤ result) × (result ≤ 5) }
{
    if value < 0x80 {
        return 1;
    }
    if value < 0x4000 {
        return 2;
    }
    if value < 0x200000 {
        return 3;
    }
    if value < 0x10000000 {
        return 4;
    }
    5
}
