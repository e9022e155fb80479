// Reading as a definition: rows, what each token does, the machine, its answer, and facts about the rows of any reading. No function
// here; the code that reads is in crates rows, steps and reader.
#![tactic(auto)]

// The answer number and its place, the rows in each table, and the outer version (0 until its whole header is read). The number is
// 01's, which `Reads` promises and the programs print, and not a Result: rows and version are told with a refusal too.
#[derive(Clone, Copy)]
pub struct Answer {
    pub number: u32,
    pub place: usize,
    pub names: usize,
    pub qnames: usize,
    pub events: usize,
    pub version: usize,
}
