// One row of a slice: which symbols stand in it and where. Each promise cites document 01's definitions of crate model.
// N's bounds are clauses, as in `record`.
#![tactic(auto)]

ghost use Rattle.std.specs.Prelude.{◌≡◌, ◌++◌, ◌+◌, ◌-◌, ◌<◌, ◌≤◌, length, get_or, take, replicate};
ghost use Rattle.parts.specs.Handed.{Handed};
ghost use Rattle.model.specs.Tests.{is_in, keep, earlier as earlier_of};
ghost use Rattle.model.specs.Steps.{new_head_of};
ghost use Rattle.model.specs.Bytes.{unused, row_bytes, symbols_in};

use parts;

// Symbol x stands in the row.
pub fn among(l: &[u8], x: u8) -> bool
    ensures { result ≡ is_in x l.now }
{
    l.contains(&x)
}

// Whichever of x and y stands earlier in the row.
pub fn earlier(l: &[u8], x: u8, y: u8) -> u8
    ensures { result ≡ earlier_of l.now x y }
{
    l.iter().copied().find(|&z| z == x || z == y).unwrap_or(y)
}

// Of the loser's head x and the winner's head y: y if x isn't in W, else whichever stands earlier in W.
pub fn new_head(w: &[u8], x: u8, y: u8) -> u8
    ensures { result ≡ new_head_of w.now x y }
{
    if among(w, x) { earlier(w, x, y) } else { y }
}

// The symbols of a row, where they stand: as many cells as its length byte says.
pub fn symbols(row: &[u8]) -> &[u8]
    requires { get_or row.now 0 0 < length row.now }
    ensures { Handed row.entry.ref_ptr.0 (row.entry.ref_ptr.1 + 1) (symbols_in row.now) result.ref_ptr result.now }
{
    &row[1..=usize::from(row[0])]
}

// A row into its n + 1 bytes: the length, the symbols, FF in every other cell.
pub fn write_row(dst: &mut [u8], n: usize, l: &[u8])
    requires { (n ≤ 8) × (length dst.old ≡ n + 1) × (length l.now ≤ n) }
    ensures { dst.new ≡ row_bytes n l.now }
{
    // At most 8 symbols stand in a row: `try_from` would have an Err that cannot come.
    dst[0] = l.len() as u8;
    parts::copy(dst, 1, l);
    dst[1 + l.len()..].fill(0xFF);
}

// The row w cut down to the symbols that stand in hs, as a row of 8 cells: the bytes that are written, the length among them.
pub fn cut_row(w: &[u8], hs: &[u8]) -> [u8; 9]
    requires { length w.now ≤ 8 }
    ensures { result ≡ row_bytes 8 (keep (λ x. is_in x hs.now) w.now) }
{
    let mut row = [0xFF; 9];
    let mut m = 0;
    for &s in w {
        if among(hs, s) {
            m += 1;
            row[m] = s;
        }
    }
    // At most 8, as above.
    row[0] = m as u8;
    row
}
