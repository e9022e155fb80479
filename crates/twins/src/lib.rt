// Equal parts of one array of numbers: for each part the next that is equal, the number of pairs, and the pairs written.
// The hash of each part is lent. A part is compared with later parts of its slot only, by the hashes first, and equal hashes
// are confirmed by comparing the numbers: the work grows with the numbers and the pairs where the hashes differ, and the
// results do not depend on the hash.
#![tactic(auto)]

ghost use Rattle.std.specs.Prelude.{◌≡◌, map, cond, ◌+◌, ◌*◌, ◌%◌, ◌<◌, ◌≤◌, length, get_or, leb};
ghost use Rattle.std.proofs.lemmas.List.Edits.{sets};
ghost use Rattle.sequences.specs.Lists.{overlay, same};
ghost use Rattle.hash.specs.Hash.{hash_of};
ghost use Rattle.meaning.specs.Meaning.{pair, pairs_of, flat_pairs};
ghost use Rattle.twins.specs.Parts.{part_at, parts_of, Cut, Next, Linked};
ghost use Rattle.twins.specs.Search.{HashesOf, part_slot, Head, PartsChained, Nexts, twins_of, part_slots, most_parts};

// Parts of one array, at most; places where one begins or the last one ends; slots of the hash table.
pub const PARTS: usize = 2048;

pub const BOUNDS: usize = 2049;

const SLOTS: usize = 4096;

const MODULUS: u64 = SLOTS as u64;

// With an early exit, though the comparison is then not vectorised, as that of `==` is: most parts are short.
fn same_numbers(a: &[u32], b: &[u32]) -> bool
    ensures { result ≡ same a.now b.now }
{
    a.len() == b.len() && a.iter().zip(b).all(|(x, y)| x == y)
}

// The n parts of one array, one after the other, and the hash of each. Starts and hashes stay two arrays: `link` is lent them apart by
// render's buffers.
#[derive(Drop)]
struct Parts<'a> {
    syms: &'a [u32],
    starts: &'a [usize],
    hashes: &'a [u64; BOUNDS],
    n: usize,
    ghost few: { n ≤ most_parts },
    ghost cut: { Cut syms.now starts.now n },
    ghost hashed: { HashesOf (part_at syms.now starts.now) n hashes.now },
}

impl Parts<'_> {
    // Part k.
    fn part(&self, k: usize) -> &[u32]
        requires { k < self.now.n }
        ensures { result.now ≡ part_at self.now.syms.now self.now.starts.now k }
    {
        let a = self.starts[k];
        let e = self.starts[k + 1];
        &self.syms[a..e]
    }

    // Whether part j is equal to part i, whose hash is h. The hashes are compared first: most unequal parts differ there.
    fn is_twin(&self, i: usize, j: usize, h: u64) -> bool
        requires { (i < self.now.n) × (j < self.now.n) × (h ≡ hash_of (part_at self.now.syms.now self.now.starts.now i)) }
        ensures { result ≡ same (part_at self.now.syms.now self.now.starts.now i) (part_at self.now.syms.now self.now.starts.now j) }
    {
        if self.hashes[j + 1] != h {
            return false;
        }
        same_numbers(self.part(i), self.part(j))
    }

    // The next part equal to part i, along the chain of its slot.
    fn find(&self, chain: &[u16; PARTS], first: usize, i: usize, h: u64) -> usize
        requires { (i < self.now.n) × PartsChained (part_at self.now.syms.now self.now.starts.now) self.now.n (i + 1) chain.now
            × (h ≡ hash_of (part_at self.now.syms.now self.now.starts.now i))
            × Head (λ x. part_slot (part_at self.now.syms.now self.now.starts.now x)) self.now.n (h % part_slots) (i + 1) first }
        ensures { Next (part_at self.now.syms.now self.now.starts.now) self.now.n i result }
    {
        let mut j = first;
        while j < self.n {
            if self.is_twin(i, j, h) {
                return j;
            }
            j = usize::from(chain[j]);
        }
        j
    }
}

// How many equal parts come after one whose next is j.
fn after(later: &[u16; PARTS], j: usize, n: usize) -> usize
    requires { (n ≤ most_parts) × (j < n → get_or later.now j 0 ≤ most_parts) }
    ensures { result ≡ cond (leb n j) 0 (get_or later.now j 0 + 1) }
{
    if n <= j {
        return 0;
    }
    later[j] as usize + 1
}

// The next equal part of each of n parts, and the number of pairs. From the last part to the first, so that what comes
// after a part is known when the part is reached.
pub fn link(
    syms: &[u32],
    starts: &[usize],
    hashes: &[u64; BOUNDS],
    n: usize,
    next: &mut [usize; PARTS],
) -> usize
    requires { (n ≤ most_parts) × Cut syms.now starts.now n × (length next.old ≡ most_parts)
        × HashesOf (part_at syms.now starts.now) n hashes.now }
    ensures { (result ≡ length (pairs_of same (parts_of syms.now starts.now n)))
        × Linked (parts_of syms.now starts.now n) next.new
        × (length next.new ≡ most_parts) }
{
    let parts = Parts {
        syms,
        starts,
        hashes,
        n,
    };
    // Places and counts are at most 2048: as u16 there are fewer bytes to clear.
    let mut slots = [n as u16; SLOTS];
    // Both arrays are written before they are read. A first value whose bytes differ is stored by vector instructions, and
    // not by a call of memset.
    let mut chain = [1u16; PARTS];
    let mut later = [1u16; PARTS];
    let mut pairs: usize = 0;
    for i in (0..n).rev() {
        let h = hashes[i + 1];
        let s = (h % MODULUS) as usize;
        let first = slots[s] as usize;
        let j = parts.find(&chain, first, i, h);
        next[i] = j;
        chain[i] = first as u16;
        slots[s] = i as u16;
        let l = after(&later, j, n);
        later[i] = l as u16;
        pairs += l;
    }
    pairs
}

// The pairs of part i with later parts, from pairs[at] on; the place after them. The parts are named in the contract only.
fn write_run(
    syms: &[u32],
    starts: &[usize],
    n: usize,
    next: &[usize; PARTS],
    i: usize,
    pairs: &mut [u32],
    at: usize,
) -> usize
    requires { (n ≤ most_parts) × (i < n) × Nexts (part_at syms.now starts.now) n 0 next.now
        × (at + 2 * length (twins_of (part_at syms.now starts.now) n i) ≤ length pairs.old) }
    ensures { (pairs.new ≡ sets pairs.old at (flat_pairs (map (pair i) (twins_of (part_at syms.now starts.now) n i))))
        × (result ≡ at + 2 * length (twins_of (part_at syms.now starts.now) n i)) }
{
    let mut to = at;
    let mut j = next[i];
    while j < n {
        pairs[to] = i as u32;
        pairs[to + 1] = j as u32;
        to += 2;
        j = next[j];
    }
    to
}

// All pairs, ordered by the earlier part, then the later, at the front of `pairs`. The links are followed: no part is read.
pub fn write_pairs(
    syms: &[u32],
    starts: &[usize],
    n: usize,
    next: &[usize; PARTS],
    pairs: &mut [u32],
)
    requires { (n ≤ most_parts) × (length next.now ≡ most_parts) × Linked (parts_of syms.now starts.now n) next.now
        × (2 * length (pairs_of same (parts_of syms.now starts.now n)) ≤ length pairs.old) }
    ensures { pairs.new ≡ overlay (flat_pairs (pairs_of same (parts_of syms.now starts.now n))) pairs.old }
{
    let mut at = 0;
    for i in 0..n {
        at = write_run(syms, starts, n, next, i, pairs, at);
    }
}
