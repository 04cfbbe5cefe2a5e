// The update of one copy of a checked table, in place: the new row is there by value before one byte is written. The promises on lent
// bytes, and a row as 9 bytes, are read by `new_row_fixed`, `put_row_fixed` and `update_in_fixed` of demands.
#![tactic(auto)]

ghost use Rattle.std.specs.Prelude.{◌≡◌, ◌∷◌, ◌+◌, ◌-◌, ◌<◌, ◌≤◌, length, get_or, take};
ghost use Rattle.parts.specs.Written.{written};
ghost use Rattle.row.specs.Tab.{tab};
ghost use Rattle.model.specs.Steps.{updated_row, updated_table};
ghost use Rattle.model.specs.Bytes.{row_size, record_size, row_bytes, table_bytes, symbols_in, row_in_slice, table_rows};
ghost use Rattle.slice.specs.Shown.{SliceShown};
ghost use Rattle.laws.specs.WellFormed.{WellTable};
ghost use Rattle.updating.specs.Others.{head_other_than};
ghost use Rattle.updating.specs.Asked.{OwnSlice, own_place};

use arrayvec::ArrayVec;

// The heads of the rows other than p.
#[tactic(auto, using(crate::proofs::Below::others_next), unfolding(row::specs::Tab::tab, crate::proofs::Below::others_below))]
fn other_heads(s: &[u8], n: usize, p: usize) -> ArrayVec<u8, 8>
    requires { SliceShown n s.now × (p < n) }
    ensures { result.items ≡ tab (n - 1) (head_other_than p (row_in_slice n s.now)) }
{
    let mut heads = ArrayVec::new();
    for k in 0..n {
        if k != p {
            heads.push(slice::head_in(s, n, k));
        }
    }
    heads
}

// A row of 8 cells with one symbol more, in front.
fn in_front(x: u8, mut row: [u8; 9]) -> [u8; 9]
    requires { (row ≡ row_bytes 8 (symbols_in row)) × (get_or row 0 0 < 8) }
    ensures { result ≡ row_bytes 8 (x ∷ symbols_in row) }
{
    row.copy_within(1..8, 2);
    row[0] += 1;
    row[1] = x;
    row
}

// The new row p of slice p of copy p, as a row of 8 cells: the new symbol, then those symbols of the old row that are still heads of
// other rows.
#[tactic(auto, using(crate::specs::Asked::own_shown, crate::specs::Asked::own_ranged, crate::specs::Asked::own_few))]
pub fn new_row(s: &[u8], n: usize, p: usize) -> [u8; 9]
    requires { OwnSlice n p s.now }
    ensures { result ≡ row_bytes 8 (updated_row n p (row_in_slice n s.now)) }
{
    let old = slice::row_in(s, n, p);
    let x = free::free_symbol(s, n);
    let heads = other_heads(s, n, p);
    let kept = row::cut_row(old, &heads);
    in_front(x, kept)
}

// Row p of slice p of a record is written into its place: the first n cells of a row of 8. What it shares with `meeting::put_slice` is
// `parts::copy`.
pub fn put_row(r: &mut [u8], n: usize, p: usize, row: &[u8])
    requires { (n ≤ 8) × (length r.old ≡ record_size n) × (p < n) × (row_size n ≤ length row.now) }
    ensures { r.new ≡ written (own_place n p) (take (row_size n) row.now) r.old }
{
    let w = n + 1;
    let at = 4 + p * slice::slice_len(n) + p * w;
    parts::copy(r, at, &row[..w]);
}

// The update of copy p of a table: of the table the part where record p stands is lent on to the writer of one record.
pub fn update_in(t: &mut [u8], n: usize, p: usize)
    requires { WellTable n t.old × (p < n) }
    ensures { t.new ≡ table_bytes n (updated_table n p (table_rows n t.old)) }
{
    let size = record::record_len(n);
    // A function that hands back a `&mut` part would need a clause on the loan, and save this expression.
    let r = &mut t[p * size..p * size + size];
    let row = new_row(slice::slice_at(r, n, p), n, p);
    put_row(r, n, p, &row);
}
