// The symbols of a row as the bits of a word: whether a row is well formed, and which symbol is free. Each promise cites document 01's
// definitions of crate model.
// N's bounds are clauses, as in `record`.
#![tactic(auto)]

ghost use Rattle.std.specs.Prelude.{◌≡◌, ◌+◌, ◌≤◌, length};
ghost use Rattle.model.specs.Bytes.{symbols_are_formed, row_is_formed};
ghost use Rattle.symbols.specs.Marks.{Below, marks};

use row;

// Symbols are in range and all different. A bit of `seen` stands for each symbol passed.
pub fn symbols_formed(l: &[u8], n: usize) -> bool
    requires { n ≤ 8 }
    ensures { result ≡ symbols_are_formed n l.now }
{
    // At most 64: a `try_from` would have an Err that cannot come.
    let limit = (n * n) as u8;
    let mut seen: u64 = 0;
    for &x in l {
        if limit <= x || (seen >> x) & 1 == 1 {
            // No `all`: of a closure that changes `seen` a proof knows nothing afterwards.
            return false;
        }
        seen |= 1 << x;
    }
    true
}

// The word with the bit of each symbol of the row set too.
pub fn mark(w: u64, l: &[u8]) -> u64
    requires { Below 64 l.now }
    ensures { result ≡ marks w l.now }
{
    l.iter().fold(w, |all, &x| all | 1 << x)
}

// A row in bytes: its length byte, its symbols, FF in the unused cells.
pub fn row_formed(row: &[u8], n: usize) -> bool
    requires { (n ≤ 8) × (length row.now ≡ n + 1) }
    ensures { result ≡ row_is_formed n row.now }
{
    let m = usize::from(row[0]);
    (1..=n).contains(&m)
        && symbols_formed(row::symbols(row), n)
        && row[1 + m..].iter().all(|&x| x == 0xFF)
}
