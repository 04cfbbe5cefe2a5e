// A fresh table: every row of every slice is the single symbol 0.
// N's bounds are clauses, as in `record`.
#![tactic(auto)]

ghost use Rattle.std.specs.Prelude.{◌≡◌, [], ◌∷◌, ◌+◌, ◌*◌, ◌≤◌, ◌<◌, length, take};
ghost use Rattle.parts.specs.Parts.{join};
ghost use Rattle.parts.specs.Written.{written};
ghost use Rattle.model.specs.Answers.{said_done};
ghost use Rattle.model.specs.Steps.{fresh_rows};
ghost use Rattle.model.specs.Bytes.{slice_size, record_size, table_size, slice_bytes, record_bytes, table_bytes};
ghost use Rattle.model.specs.Calls.{fresh_says, fresh_leaves};
ghost use Rattle.model.specs.Promises.{Owed};

use model::Refusal;

// `src` n times, one behind another, into `dst` from `at` on. Not by chunks_exact_mut: of what it lends a proof keeps the length alone.
fn repeat(dst: &mut [u8], at: usize, src: &[u8], n: usize)
    requires { (n ≤ 8) × (at + n * length src.now ≤ length dst.old) }
    ensures { dst.new ≡ written at (join n (λ k. src.now)) dst.old }
{
    for k in 0..n {
        parts::copy(dst, at + k * src.len(), src);
    }
}

// A fresh slice, in the front of 72 bytes. An `ArrayVec` would be filled by a push for each byte, and is no plainer.
fn fresh_slice(n: usize) -> [u8; 72]
    requires { (1 ≤ n) × (n ≤ 8) }
    ensures { take (slice_size n) result ≡ slice_bytes n (λ k. 0 ∷ []) }
{
    let row = [1, 0, 0xFF, 0xFF, 0xFF, 0xFF, 0xFF, 0xFF, 0xFF];
    let mut s = [0; 72];
    repeat(&mut s, 0, &row[..n + 1], n);
    s
}

// A fresh record with its own number.
fn fresh_record(r: &mut [u8], n: usize, own: usize)
    requires { (1 ≤ n) × (n ≤ 8) × (own < n) × (length r.old ≡ record_size n) }
    ensures { r.new ≡ record_bytes n own (fresh_rows own) }
{
    record::put_header(r, n, own);
    let s = fresh_slice(n);
    repeat(r, 4, &s[..slice::slice_len(n)], n);
}

// Every record of a fresh table.
fn fresh_records(t: &mut [u8], n: usize)
    requires { (1 ≤ n) × (n ≤ 8) × (length t.old ≡ table_size n) }
    ensures { t.new ≡ table_bytes n fresh_rows }
{
    let w = record::record_len(n);
    for own in 0..n {
        // A function that hands back a `&mut` part would need a clause on the loan, and save this expression.
        fresh_record(&mut t[own * w..own * w + w], n, own);
    }
}

// Make a fresh table of n copies: refusals 2, then 3; the old bytes are ignored.
#[tactic(auto, unfolding(model::specs::Answers::answer, model::specs::Answers::accepted, model::specs::Answers::leave, model::specs::Bytes::is_in_range, model::specs::Calls::fresh_reasons, model::specs::Calls::fresh_says, model::specs::Calls::fresh_leaves))]
pub fn make_fresh(t: &mut [u8], n: usize) -> Result<(), Refusal>
    ensures { Owed (fresh_says t.old n) (fresh_leaves t.old n ∷ []) (said_done result) (t.new ∷ []) }
{
    if !record::in_range(n) {
        return Err(Refusal::WrongN);
    }
    if t.len() != n * record::record_len(n) {
        return Err(Refusal::WrongLength);
    }
    fresh_records(t, n);
    Ok(())
}
