// A mark for each row of qnames, made once: the walk over the events then looks up no class and compares no text.
#![tactic(auto)]

ghost use Rattle.std.specs.Prelude.{◌≡◌, ◌||◌, ℕ, ◌≤◌, ◌<◌, length, take};
ghost use Rattle.sequences.specs.Lists.{same};
ghost use Rattle.meaning.specs.Meaning.{xmlns};
ghost use Rattle.marks.specs.Names.{pair_of, PairFits, Named, declares_at, xmlns_colon, largest_pair};
ghost use Rattle.marks.specs.Marks.{mark_of, MarksOf};
ghost use Rattle.token.specs.Tokens.{qname_rows};

// Added to the mark of a qname that declares a prefix.
pub const DECLARING: u32 = 2147483648;

// The text is "xmlns" or starts "xmlns:".
fn is_xmlns(text: &[u8]) -> bool
    ensures { result ≡ (same text.now xmlns || same (take 12 text.now) xmlns_colon) }
{
    text == b"x\0m\0l\0n\0s\0".as_slice() || text.starts_with(b"x\0m\0l\0n\0s\0:\0")
}

// A document and the tables of its names: so many rows of names and their classes, and qnames.
#[derive(Drop)]
struct Tables<'a> {
    doc: &'a [u8],
    names: &'a [u32],
    qnames: &'a [u32],
    classes: &'a [u32; token::NAME_ROWS],
    rows: usize,
}

impl Tables<'_> {
    // The classes of URI and local of a row of qnames as one number.
    fn pair_at(&self, row: usize) -> u32
        requires { PairFits self.now.qnames.now self.now.classes.now row }
        ensures { (result ≡ pair_of self.now.qnames.now self.now.classes.now row) × (result ≤ largest_pair) }
    {
        let first = token::QNAME_WIDTH * (row - 1);
        let uri = classes::class_of(self.qnames, self.classes, first);
        let local = classes::class_of(self.qnames, self.classes, first + 2);
        classes::CLASSES * uri + local
    }

    // The attribute of a row of qnames declares a prefix. Classes are compared first, bytes seldom.
    fn declares_at(&self, row: usize) -> bool
        requires { Named self.now.doc.now self.now.names.now self.now.qnames.now self.now.classes.now self.now.rows row }
        ensures { result ≡ declares_at self.now.doc.now self.now.names.now self.now.qnames.now self.now.rows row }
    {
        let first = token::QNAME_WIDTH * (row - 1);
        if classes::class_of(self.qnames, self.classes, first) != 0 {
            return false;
        }
        if classes::class_of(self.qnames, self.classes, first + 2) != 0 {
            return false;
        }
        let prefix = slices::cell(self.qnames, first + 1);
        if prefix == 0 {
            return false;
        }
        let place = slices::cell(self.names, 2 * (prefix - 1));
        let units = slices::cell(self.names, 2 * (prefix - 1) + 1);
        let end = place + 2 * units;
        is_xmlns(&self.doc[place..end])
    }

    // The mark of a row: that of an opening, and 2 ^ 31 more where an attribute with this qname declares a prefix. One number holds
    // both: a struct or an enum for each row would make the table twice as large.
    fn mark_at(&self, row: usize) -> u32
        requires { Named self.now.doc.now self.now.names.now self.now.qnames.now self.now.classes.now self.now.rows row }
        ensures { (result ≡ mark_of self.now.doc.now self.now.names.now self.now.qnames.now self.now.classes.now self.now.rows row)
            × (pair_of self.now.qnames.now self.now.classes.now row ≤ largest_pair) }
    {
        let opening = meaning::FIRST_MARK + meaning::MARK_KINDS * self.pair_at(row);
        if self.declares_at(row) {
            return opening + DECLARING;
        }
        opening
    }
}

// The marks of the first `qrows` rows of qnames.
pub fn fill(
    doc: &[u8],
    names: &[u32],
    qnames: &[u32],
    classes: &[u32; token::NAME_ROWS],
    rows: usize,
    qrows: usize,
    marks: &mut [u32; token::QNAME_ROWS],
)
    requires { (qrows ≤ qname_rows) × (length marks.old ≡ qname_rows)
        × ((row : ℕ) → 1 ≤ row → row ≤ qrows → Named doc.now names.now qnames.now classes.now rows row) }
    ensures { MarksOf doc.now names.now qnames.now classes.now rows qrows marks.new }
{
    let tables = Tables {
        doc,
        names,
        qnames,
        classes,
        rows,
    };
    for k in 0..qrows {
        marks[k] = tables.mark_at(k + 1);
    }
}
