// The rows of one loose record, read. The promise of read_rows cites document 01's definitions of crate model.
#![tactic(auto)]

ghost use Rattle.std.specs.Prelude.{◌≡◌, ◌≤◌, ◌/◌, ◌%◌, length, true, false, MatchOption};
ghost use Rattle.model.specs.Bytes.{record_rows};
ghost use Rattle.model.specs.Calls.{is_within, rows_given, read_says, read_gives};
ghost use Rattle.model.specs.Promises.{Read};
ghost use Rattle.slice.specs.Shown.{RecordShown};

use model::{Refusal, Rows};

// Row i of the room: row i % 8 of slice i / 8, if both are below N. A record with its fact as a type would serve two functions here and
// be taken apart again for `slice::row_of`.
#[tactic(auto, using(slice::specs::Places::row_of_length), unfolding(model::specs::Calls::is_within))]
fn room_row(r: &[u8], n: usize, i: usize) -> Option<&[u8]>
    requires { RecordShown n r.now }
    ensures { MatchOption result (is_within n (i / 8) (i % 8) ≡ false) (λ row. (is_within n (i / 8) (i % 8) ≡ true) × (row.now ≡ record_rows n r.now (i / 8) (i % 8)) × (length row.now ≤ 8)) }
{
    let (p, k) = (i / 8, i % 8);
    if p < n && k < n {
        Some(slice::row_of(r, n, p, k))
    } else {
        None
    }
}

// All rows of a record, in their room: length 0 beyond N, FF in the places past a row's length and beyond N.
fn rows_in(r: &[u8], n: usize, own: usize) -> Rows
    requires { RecordShown n r.now }
    ensures { result ≡ rows_given n own (record_rows n r.now) }
{
    let mut lengths = [0; 64];
    let mut cells = [0xFF; 512];
    for i in 0..64 {
        if let Some(row) = room_row(r, n, i) {
            // At most 8: `try_from` would have an Err that cannot come.
            lengths[i] = row.len() as u8;
            parts::copy(&mut cells, i * 8, row);
        }
    }
    Rows {
        n,
        own,
        lengths,
        cells,
    }
}

// Reading of one loose record: its rows, or refusals 1 to 4.
pub fn read_rows(r: &[u8]) -> Result<Rows, Refusal>
    ensures { Read (read_says r.now) (read_gives r.now) result }
{
    record::check_record(r)?;
    Ok(rows_in(r, usize::from(r[2]), usize::from(r[3])))
}
