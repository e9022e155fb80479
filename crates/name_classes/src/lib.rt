// Classes of rows of names with equal texts: texts are compared here, once for a table, and only where their hashes are equal. The
// classes do not depend on the hash.
#![tactic(auto)]

ghost use Rattle.std.specs.Prelude.{◌≡◌, cond, ◌+◌, ◌*◌, ◌≤◌, ◌<◌, length, get_or, eqb};
ghost use Rattle.sequences.specs.Lists.{same};
ghost use Rattle.sequences.specs.Arrays.{Front, Every};
ghost use Rattle.machine.specs.Facts.{NameFits};
ghost use Rattle.machine.specs.Tables.{name_rows_in, NamesInside};
ghost use Rattle.classes.specs.Classes.{name_classes};
ghost use Rattle.classes.specs.Search.{row_text_at};
ghost use Rattle.classes.specs.Tree.{FirstAre};
ghost use Rattle.token.specs.Tokens.{name_width, longest, name_rows};
ghost use Rattle.name_classes.specs.Texts.{text_hash};

// The text of row `k` of names.
fn row_text<'a>(doc: &'a [u8], names: &[u32], k: usize, n: usize) -> &'a [u8]
    requires { NamesInside doc.now names.now n × (k < n) }
    ensures { result.now ≡ row_text_at doc.now names.now k }
{
    let from = slices::cell(names, token::NAME_WIDTH * k);
    let to = from + 2 * slices::cell(names, token::NAME_WIDTH * k + 1);
    &doc[from..to]
}

// The hash of a text, unit by unit.
fn hash_of(text: &[u8]) -> u64
    ensures { result ≡ text_hash text.now }
{
    let mut h = hash::SEED;
    for k in 0..text.len() / 2 {
        let unit = u32::from(text[2 * k]) + 256 * u32::from(text[2 * k + 1]);
        h = hash::mix(h, unit);
    }
    h
}

// Whether row `j` of names has the text of row `r`, whose hash is `h`. The hashes are compared first: most unequal texts differ there.
fn same_row(
    doc: &[u8],
    names: &[u32],
    hashes: &[u64; token::NAME_ROWS],
    j: usize,
    r: usize,
    h: u64,
) -> bool
    requires { NamesInside doc.now names.now (r + 1) × (j < r) × FirstAre (λ k. text_hash (row_text_at doc.now names.now k)) r hashes.now
        × (h ≡ text_hash (row_text_at doc.now names.now r)) }
    ensures { result ≡ same (row_text_at doc.now names.now j) (row_text_at doc.now names.now r) }
{
    if hashes[j] != h {
        return false;
    }
    row_text(doc, names, j, r + 1) == row_text(doc, names, r, r + 1)
}

// The class of row `r` of names where no earlier row has its text: 0 for the empty text.
fn own_class(names: &[u32], r: usize) -> u32
    requires { (r < name_rows) × (name_width * r + name_width ≤ length names.now) }
    ensures { result ≡ cond (eqb (get_or names.now (name_width * r + 1) 0) 0) 0 (r + 1) }
{
    if slices::cell(names, token::NAME_WIDTH * r + 1) == 0 {
        return 0;
    }
    r as u32 + 1
}

// The class of each of the first `count` rows of names.
pub fn name_classes(doc: &[u8], names: &[u32], count: usize, classes: &mut [u32; token::NAME_ROWS])
    requires { (count ≤ name_rows) × (name_width * count ≤ length names.now) × (length doc.now ≤ longest) × (length classes.old ≡ name_rows)
        × Every (NameFits (length doc.now)) (name_rows_in count names.now) }
    ensures { Front (name_classes doc.now (name_rows_in count names.now)) classes.new
        × (length classes.new ≡ name_rows) }
{
    // The rows of the tree, and the hashes of the rows passed, each written before it is read. A first value whose bytes differ
    // is stored by vector instructions, not by memset.
    let mut tree = [classes::NO_ROW; classes::PLACES];
    let mut hashes = [1u64; token::NAME_ROWS];
    for r in 0..count {
        let h = hash_of(row_text(doc, names, r, count));
        let p = classes::find(&tree, r, h, |j| same_row(doc, names, &hashes, j, r, h));
        let j = usize::from(tree[p]);
        let own = own_class(names, r);
        classes[r] = classes::class_or(classes, j, own);
        hashes[r] = h;
        classes::put_row(&mut tree, p, r);
    }
}
