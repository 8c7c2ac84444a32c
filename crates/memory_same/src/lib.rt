// Whether two parts of memories hold the same cells.
#![tactic(auto)]

ghost use Rattle.std.specs.Prelude.{◌≡◌};
ghost use Rattle.memory_same.specs.Same.{same};

// Whether two lists of cells are the same, cell for cell. All cells are looked at: so the compiler takes several at once. Tried: `x == y`,
// which looks at fewer; two blocks that are the same take it 41 instructions for 23, and docs/BENCH.md, "Differences", has its bar.
pub fn same(x: &[u8], y: &[u8]) -> bool
    ensures { result ≡ same x.now y.now }
{
    if x.len() != y.len() {
        return false;
    }
    let mut equal = true;
    for (a, b) in x.iter().zip(y) {
        equal &= a == b;
    }
    equal
}
