// What rewriting promises. No function here; the code is in crate rewriter.
#![tactic(auto)]

// The answer number, its place or count, and the length written. The number is 01's: `Rewrites` promises it.
#[derive(Clone, Copy)]
pub struct Answer {
    pub number: u32,
    pub place: usize,
    pub length: usize,
}
