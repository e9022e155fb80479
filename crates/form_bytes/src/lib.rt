// The bytes of the form's fields: texts and payloads after their lengths, and headers.
#![tactic(auto)]

ghost use Rattle.std.specs.Prelude.{◌++◌, ◌+◌, ◌*◌, ◌≤◌, length};
ghost use Rattle.sequences.specs.Lists.{part};
ghost use Rattle.number.specs.Number.{shortest};
ghost use Rattle.form.specs.Canonical.{with_units, length_of, header_of};
ghost use Rattle.form_output.specs.Output.{Fits, Put, far_bytes};
ghost use Rattle.token.specs.Tokens.{longest};

use token::Shape;

// Bytes after a number: their count, or that of the units that they are.
fn put_counted(
    doc: &[u8],
    place: usize,
    size: usize,
    count: usize,
    out: &mut [u8],
    at: usize,
) -> usize
    requires { (place + size ≤ length doc.now) × (length doc.now ≤ longest) × (at ≤ far_bytes) × (count ≤ size)
        × Fits (length out.old) at (length (shortest count) + size) }
    ensures { Put out.old out.new at result (shortest count ++ part doc.now place size) }
{
    let p = form_output::put_number(out, at, count);
    form_output::put_part(doc, place, size, out, p)
}

// A text after its length in units.
pub fn put_text(doc: &[u8], place: usize, units: usize, out: &mut [u8], at: usize) -> usize
    requires { (place + 2 * units ≤ length doc.now) × (length doc.now ≤ longest) × (at ≤ far_bytes)
        × Fits (length out.old) at (length (with_units (part doc.now place (2 * units)))) }
    ensures { Put out.old out.new at result (with_units (part doc.now place (2 * units))) }
{
    let size = 2 * units;
    put_counted(doc, place, size, units, out, at)
}

// A payload after its length, where its shape has one.
pub fn put_value(
    doc: &[u8],
    shape: Shape,
    place: usize,
    size: usize,
    out: &mut [u8],
    at: usize,
) -> usize
    requires { (place + size ≤ length doc.now) × (length doc.now ≤ longest) × (at ≤ far_bytes)
        × Fits (length out.old) at (length (length_of shape (part doc.now place size)) + size) }
    ensures { Put out.old out.new at result (length_of shape (part doc.now place size) ++ part doc.now place size) }
{
    match shape {
        Shape::Text(_) => put_counted(doc, place, size, size / 2, out, at),
        Shape::Blob(_) | Shape::CodePage(_) | Shape::Decimal => {
            put_counted(doc, place, size, size, out, at)
        }
        _ => form_output::put_part(doc, place, size, out, at),
    }
}

pub fn put_header(out: &mut [u8], at: usize, version: u8) -> usize
    requires { at ≤ far_bytes }
    ensures { Put out.old out.new at result (header_of version) }
{
    form_output::put(out, at, 0xDF);
    form_output::put(out, at + 1, 0xFF);
    form_output::put(out, at + 2, version);
    form_output::put(out, at + 3, 0xB0);
    form_output::put(out, at + 4, 0x04);
    at + 5
}
