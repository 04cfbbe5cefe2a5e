// Rows written into a lent buffer as one loose record. The promise of write_rows cites document 01's definitions of crate model.
// N's bounds are clauses, as in `record`.
#![tactic(auto)]

ghost use Rattle.std.specs.Prelude.{◌≡◌, [], ◌∷◌, ◌<◌, ◌≤◌, length, take, IsTrue};
ghost use Rattle.parts.specs.Parts.{join};
ghost use Rattle.model.specs.Answers.{said_done};
ghost use Rattle.model.specs.Bytes.{slice_size, record_size, record_is_formed};
ghost use Rattle.model.specs.Calls.{row_passed, record_passed, write_says, write_leaves};
ghost use Rattle.model.specs.Promises.{Owed};

use model::{Refusal, Rows};

// Slice p of the record that would be written: for each row its length and the first N cells of its room. It stands in the front of an
// array: an `ArrayVec` would be filled by a push for each byte, and is no plainer.
fn slice_passed(rows: &Rows, p: usize) -> [u8; 72]
    requires { (rows.now.n ≤ 8) × (p < rows.now.n) }
    ensures { take (slice_size rows.now.n) result ≡ join rows.now.n (row_passed rows.now p) }
{
    let n = rows.n;
    let mut slice = [0; 72];
    for k in 0..n {
        let i = p * 8 + k;
        let at = k * (n + 1);
        slice[at] = rows.lengths[i];
        parts::copy(&mut slice, at + 1, &rows.cells[i * 8..i * 8 + n]);
    }
    slice
}

// The record that would be written is well formed.
fn passed_formed(rows: &Rows) -> bool
    requires { rows.now.n ≤ 8 }
    ensures value { result ≡ record_is_formed rows.now.n (record_passed rows.now) }
    ensures own { IsTrue result → rows.now.own < rows.now.n }
{
    let (n, own) = (rows.n, rows.own);
    let w = slice::slice_len(n);
    own < n && (0..n).all(|p| record::slice_formed(&slice_passed(rows, p)[..w], n, own))
}

// The record, over the old bytes: its header, then slice by slice.
fn put_record(r: &mut [u8], rows: &Rows)
    requires { (rows.now.n ≤ 8) × (rows.now.own < rows.now.n) × (length r.old ≡ record_size rows.now.n) }
    ensures { r.new ≡ record_passed rows.now }
{
    let n = rows.n;
    record::put_header(r, n, rows.own);
    let w = slice::slice_len(n);
    for p in 0..n {
        // As `meeting::put_slice`, which stands above this crate: one line each.
        parts::copy(r, 4 + p * w, &slice_passed(rows, p)[..w]);
    }
}

// Writing of rows: the record, or refusals 2 to 4 and the old bytes.
#[tactic(auto, unfolding(model::specs::Answers::answer, model::specs::Answers::accepted, model::specs::Answers::leave, model::specs::Bytes::is_in_range, model::specs::Calls::write_reasons, model::specs::Calls::write_says, model::specs::Calls::write_leaves))]
pub fn write_rows(r: &mut [u8], rows: Rows) -> Result<(), Refusal>
    ensures { Owed (write_says r.old rows) (write_leaves r.old rows ∷ []) (said_done result) (r.new ∷ []) }
{
    if !record::in_range(rows.n) {
        return Err(Refusal::WrongN);
    }
    if r.len() != record::record_len(rows.n) {
        return Err(Refusal::WrongLength);
    }
    if !passed_formed(&rows) {
        return Err(Refusal::NotWellFormed);
    }
    put_record(r, &rows);
    Ok(())
}
