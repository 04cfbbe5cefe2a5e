// One record in bytes: is it well formed, and the check of a loose record. Each promise cites document 01's definitions of crate model.
// N is a number and its bounds are clauses, as in the theorems of demands (`record_formed_fixed`): a type for 2 to 8 would be taken apart
// at each length.
#![tactic(auto)]

ghost use Rattle.std.specs.Prelude.{◌≡◌, [], ◌<◌, ◌≤◌, length, IfOk};
ghost use Rattle.parts.specs.Parts.{part};
ghost use Rattle.parts.specs.Written.{written};
ghost use Rattle.model.specs.Tests.{all};
ghost use Rattle.model.specs.Answers.{said, said_done, done, answer};
ghost use Rattle.model.specs.Bytes.{row_size, slice_size, record_size, header_bytes, row_in_slice, slice_in, marked, copies_in, is_in_range, row_is_formed, slice_is_formed, record_is_formed};
ghost use Rattle.model.specs.Calls.{check_record_says};
ghost use Rattle.model.specs.Promises.{Owed};
ghost use Rattle.record.specs.Passed.{RowsPassed};
ghost use Rattle.record.specs.Told.{header_reasons};
ghost use Rattle.record.specs.Words.{head_marks};

use model::Refusal;

// Every row of a slice.
fn rows_formed(s: &[u8], n: usize) -> bool
    requires { (n ≤ 8) × (length s.now ≡ slice_size n) }
    ensures { result ≡ all n (λ k. row_is_formed n (part (row_size n) k s.now)) }
{
    s.chunks_exact(n + 1).all(|row| symbols::row_formed(row, n))
}

// The heads of a slice's rows as the bits of a word.
fn head_word(s: &[u8], n: usize) -> u64
    requires { RowsPassed n s.now }
    ensures { result ≡ head_marks n (row_in_slice n s.now) }
{
    (0..n).fold(0, |word, k| word | 1 << slice::head_in(s, n, k))
}

// A slice in bytes: every row, then the principal row, whose symbols are the heads of all rows.
pub fn slice_formed(s: &[u8], n: usize, own: usize) -> bool
    requires { (n ≤ 8) × (length s.now ≡ slice_size n) × (own < n) }
    ensures { result ≡ slice_is_formed n own s.now }
{
    rows_formed(s, n) && head_word(s, n) == symbols::mark(0, slice::row_in(s, n, own))
}

// Every slice of a record.
fn slices_formed(r: &[u8], n: usize, own: usize) -> bool
    requires { (n ≤ 8) × (length r.now ≡ record_size n) × (own < n) }
    ensures { result ≡ all n (λ p. slice_is_formed n own (slice_in n r.now p)) }
{
    r[4..]
        .chunks_exact(slice::slice_len(n))
        .all(|s| slice_formed(s, n, own))
}

// The mark that every record begins with.
const MARK: [u8; 2] = [0xB5, 0x0A];

// The first two bytes are the mark.
#[tactic(auto, unfolding(model::specs::Bytes::marked))]
pub fn has_mark(b: &[u8]) -> bool
    requires { 2 ≤ length b.now }
    ensures { result ≡ marked b.now }
{
    b.starts_with(&MARK)
}

// The header into the first four bytes: the mark, N, the own number.
#[tactic(auto, unfolding(model::specs::Bytes::header_bytes))]
pub fn put_header(r: &mut [u8], n: usize, own: usize)
    requires { (4 ≤ length r.old) × (n ≤ 8) × (own < n) }
    ensures { r.new ≡ written 0 (header_bytes n own (λ p k. [])) r.old }
{
    // Both are at most 8: `try_from` would have an Err that cannot come.
    let header = [MARK[0], MARK[1], n as u8, own as u8];
    parts::copy(r, 0, &header);
}

// N is 2 to 8.
#[tactic(auto, unfolding(model::specs::Bytes::is_in_range))]
pub fn in_range(n: usize) -> bool
    ensures { result ≡ is_in_range n }
{
    (2..=8).contains(&n)
}

// A record of the right size is well formed: its header, then slice by slice.
#[tactic(auto, unfolding(model::specs::Bytes::copies_in, model::specs::Bytes::own_in, model::specs::Bytes::header_is_formed, model::specs::Bytes::record_is_formed))]
pub fn record_formed(r: &[u8], n: usize) -> bool
    requires { (2 ≤ n) × (n ≤ 8) × (length r.now ≡ record_size n) }
    ensures { result ≡ record_is_formed n r.now }
{
    let own = usize::from(r[3]);
    has_mark(r) && usize::from(r[2]) == n && own < n && slices_formed(r, n, own)
}

// How many bytes a record of n copies has.
pub fn record_len(n: usize) -> usize
    requires { n ≤ 8 }
    ensures { result ≡ record_size n }
{
    4 + n * slice::slice_len(n)
}

// N of the header of a record or a table: refusal 1, then 2.
#[tactic(auto, unfolding(model::specs::Answers::answer, model::specs::Bytes::copies_in, model::specs::Bytes::is_in_range, model::specs::Calls::form_reasons, crate::specs::Told::header_reasons))]
pub fn copies_told(b: &[u8]) -> Result<usize, Refusal>
    ensures answers { said (λ _. done) result ≡ answer (header_reasons b.now) done }
    ensures copies { IfOk result (λ n. n ≡ copies_in b.now) }
    ensures range { IfOk result (λ n. (2 ≤ n) × (n ≤ 8)) }
{
    if b.len() < 4 || !has_mark(b) {
        return Err(Refusal::Unmarked);
    }
    let n = usize::from(b[2]);
    if !in_range(n) {
        return Err(Refusal::WrongN);
    }
    Ok(n)
}

// Check of one loose record: refusals 1 to 4.
#[tactic(auto, unfolding(model::specs::Answers::answer, model::specs::Bytes::copies_in, model::specs::Calls::form_reasons, model::specs::Calls::record_reasons, model::specs::Calls::check_record_says, crate::specs::Told::header_reasons))]
pub fn check_record(r: &[u8]) -> Result<(), Refusal>
    ensures { Owed (check_record_says r.now) [] (said_done result) [] }
{
    let n = copies_told(r)?;
    if r.len() != record_len(n) {
        return Err(Refusal::WrongLength);
    }
    if !record_formed(r, n) {
        return Err(Refusal::NotWellFormed);
    }
    Ok(())
}
