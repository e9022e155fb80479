// Rows with equal texts have one class. What the searches over names and over qnames share: a row's class, and the tree in which the
// first row of each text stands. Its place is found by a hash: first the slot, then at each row on the way a bit of the hash, from the
// lowest on. So a row with another hash than all others is at most as deep as the hash has bits, whatever its slot.
#![tactic(auto)]

ghost use Rattle.std.specs.Prelude.{◌≡◌, cond, ℕ, List, ◌≤◌, ◌<◌, min, length, get_or, set, ltb};
ghost use Rattle.classes.specs.Search.{class_at, Keyable};
ghost use Rattle.classes.specs.Tree.{tree_places, Tree, Shaped, TellsRow, Spot};
ghost use Rattle.token.specs.Tokens.{name_rows};

// The classes: 0 for the empty text, and the number of a row.
pub const CLASSES: u32 = 1025;

// The slots of the tree, a prime number, and its places: two more for each row.
pub const SLOTS: usize = 2039;

pub const PLACES: usize = SLOTS + 2 * token::NAME_ROWS;

// The slots, as a hash has them.
const MODULUS: u64 = SLOTS as u64;

// No row, at a place.
pub const NO_ROW: u16 = token::NAME_ROWS as u16;

// The class of row `j`, or `own` where `j` is no row.
pub fn class_or(classes: &[u32; token::NAME_ROWS], j: usize, own: u32) -> u32
    ensures { result ≡ cond (ltb j name_rows) (get_or classes.now j 0) own }
{
    classes.get(j).copied().unwrap_or(own)
}

// The place of the tree for the value of row `r`, whose hash is `h`: where an earlier row with that value stands, or none. `same` tells
// whether an earlier row has it.
pub fn find<F: Fn(usize) -> bool>(tree: &[u16; PLACES], r: usize, h: u64, same: F) -> usize
    requires { (r < name_rows) × Shaped r tree.now × ((j : ℕ) → j < r → F.pre same j) }
    ensures { (hash : List ℕ → ℕ) (m : ℕ → List ℕ) → Tree hash m r tree.now → h ≡ hash (m r) → TellsRow (F.post same) m r
        → Spot hash m r tree.now result }
{
    let mut bits = h;
    let mut p = (h % MODULUS) as usize;
    let mut j = usize::from(tree[p]);
    while j < token::NAME_ROWS {
        if same(j) {
            return p;
        }
        p = SLOTS + 2 * j + (bits % 2) as usize;
        bits /= 2;
        j = usize::from(tree[p]);
    }
    p
}

// Puts row `r` at place `p` of the tree, where no earlier row is there.
pub fn put_row(tree: &mut [u16; PLACES], p: usize, r: usize)
    requires { (p < tree_places) × (r < name_rows) × (get_or tree.old p 0 ≤ name_rows) }
    ensures { tree.new ≡ set tree.old p (min (get_or tree.old p 0) r) }
{
    let j = usize::from(tree[p]);
    tree[p] = j.min(r) as u16;
}

// The class of a row, counted from 1; row 0 is the empty name.
pub fn class_at(classes: &[u32; token::NAME_ROWS], row: usize) -> u32
    requires { row ≤ name_rows }
    ensures { result ≡ class_at classes.now row }
{
    if row == 0 { 0 } else { classes[row - 1] }
}

// The class of the row of names that number `k` of a table of qnames refers to.
pub fn class_of(qnames: &[u32], classes: &[u32; token::NAME_ROWS], k: usize) -> u32
    requires { (k < length qnames.now) × Keyable classes.now (get_or qnames.now k 0) }
    ensures { (result ≡ class_at classes.now (get_or qnames.now k 0)) × (result ≤ name_rows) }
{
    let row = slices::cell(qnames, k);
    class_at(classes, row)
}
