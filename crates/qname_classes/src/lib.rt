// Classes of rows of qnames with equal texts, by the classes of their names: no text is compared.
#![tactic(auto)]

ghost use Rattle.std.specs.Prelude.{◌≡◌, ◌+◌, ◌*◌, ◌≤◌, ◌<◌, length, get_or};
ghost use Rattle.sequences.specs.Arrays.{Front, Every};
ghost use Rattle.machine.specs.Facts.{QnameFits};
ghost use Rattle.machine.specs.Tables.{name_rows_in, qname_rows_in};
ghost use Rattle.classes.specs.Classes.{name_classes, qname_classes};
ghost use Rattle.classes.specs.Search.{Keyable, key_at};
ghost use Rattle.token.specs.Tokens.{name_width, qname_width, name_rows, qname_rows};

// The classes of a row of qnames as one number: equal keys mean equal texts.
fn key_of(qnames: &[u32], classes: &[u32; token::NAME_ROWS], r: usize) -> u32
    requires { (r < qname_rows) × (qname_width * r + qname_width ≤ length qnames.now) × Keyable classes.now (get_or qnames.now (qname_width * r) 0)
        × Keyable classes.now (get_or qnames.now (qname_width * r + 1) 0) × Keyable classes.now (get_or qnames.now (qname_width * r + 2) 0) }
    ensures { result ≡ key_at qnames.now classes.now r }
{
    let uri = classes::class_of(qnames, classes, token::QNAME_WIDTH * r);
    let prefix = classes::class_of(qnames, classes, token::QNAME_WIDTH * r + 1);
    let local = classes::class_of(qnames, classes, token::QNAME_WIDTH * r + 2);
    (uri * classes::CLASSES + prefix) * classes::CLASSES + local
}

// The class of each of the first `count` rows of qnames; `classes` are those of the names' rows.
pub fn qname_classes(
    doc: &[u8],
    names: &[u32],
    rows: usize,
    qnames: &[u32],
    count: usize,
    classes: &[u32; token::NAME_ROWS],
    qclasses: &mut [u32; token::QNAME_ROWS],
)
    requires { (rows ≤ name_rows) × (name_width * rows ≤ length names.now) × (count ≤ qname_rows) × (qname_width * count ≤ length qnames.now)
        × (length classes.now ≡ name_rows) × (length qclasses.old ≡ qname_rows)
        × Front (name_classes doc.now (name_rows_in rows names.now)) classes.now
        × Every (QnameFits rows) (qname_rows_in count qnames.now) }
    ensures { Front (qname_classes doc.now (name_rows_in rows names.now) (qname_rows_in count qnames.now)) qclasses.new
        × (length qclasses.new ≡ qname_rows) }
{
    // As for names; a key is its own hash. The loop is not shared: the hash, the test and the class of a new text are half of its lines.
    let mut tree = [classes::NO_ROW; classes::PLACES];
    let mut keys = [1u32; token::QNAME_ROWS];
    for r in 0..count {
        let key = key_of(qnames, classes, r);
        let p = classes::find(&tree, r, u64::from(key), |j| keys[j] == key);
        let j = usize::from(tree[p]);
        qclasses[r] = classes::class_or(qclasses, j, r as u32 + 1);
        keys[r] = key;
        classes::put_row(&mut tree, p, r);
    }
}
