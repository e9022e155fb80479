// Bytes into an output, written or only counted: an output that ends at or before a place takes nothing.
#![tactic(auto)]

ghost use Rattle.std.specs.Prelude.{◌≡◌, ◌+◌, ◌≤◌, length, set};
ghost use Rattle.std.proofs.lemmas.List.Edits.{sets};
ghost use Rattle.sequences.specs.Lists.{part};
ghost use Rattle.number.specs.Number.{shortest};
ghost use Rattle.form_output.specs.Output.{Fits, Put, far_bytes};
ghost use Rattle.token.specs.Tokens.{longest, largest};

// It asks nothing. An output that kept its own place would ask here that the next place is a number, so the place stays beside it.
pub fn put(out: &mut [u8], at: usize, byte: u8)
    ensures { out.new ≡ set out.old at byte }
{
    if at < out.len() {
        out[at] = byte;
    }
}

// The shortest spelling of a number; gives the place after it. The loop counts no index: it ends with the value.
pub fn put_number(out: &mut [u8], at: usize, value: usize) -> usize
    requires { (value ≤ largest) × (at ≤ far_bytes) }
    ensures { Put out.old out.new at result (shortest value) }
{
    let mut left = value;
    let mut p = at;
    while 128 <= left {
        put(out, p, (128 + left % 128) as u8);
        left /= 128;
        p += 1;
    }
    put(out, p, left as u8);
    p + 1
}

// Bytes of the document; measuring does not look at them. A number of at most five bytes may stand before them.
pub fn put_part(doc: &[u8], place: usize, size: usize, out: &mut [u8], at: usize) -> usize
    requires { (place + size ≤ length doc.now) × (length doc.now ≤ longest) × (at ≤ far_bytes + 5) × Fits (length out.old) at size }
    ensures { Put out.old out.new at result (part doc.now place size) }
{
    let next = at + size;
    if out.len() <= at {
        return next;
    }
    out[at..next].copy_from_slice(&doc[place..place + size]);
    next
}
