// An element of a lent table.
#![tactic(auto)]

ghost use Rattle.std.specs.Prelude.{◌≡◌, ◌<◌, length, get_or};

// A number of a table.
pub fn cell(table: &[u32], k: usize) -> usize
    requires { k < length table.now }
    ensures { (result ≡ get_or table.now k 0) × (result < 4294967296) }
{
    table[k] as usize
}
