// What listing promises, and the theorems on it. No function here; the code is in crate lister.
#![tactic(auto)]

// The answer number, its place or count, and how many records and pairs there are. The number is 01's: `Lists` promises it, and
// records and pairs are told with 11 too.
#[derive(Clone, Copy)]
pub struct Answer {
    pub number: u32,
    pub place: usize,
    pub records: usize,
    pub pairs: usize,
}
