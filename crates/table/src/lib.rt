// The calls on a table that only read it: check, compare, lend, superfluous copies. None asks anything of its input.
// N's bounds are clauses, as in `record`.
#![tactic(auto, unfolding(model::specs::Answers::answer, model::specs::Bytes::copies_in, model::specs::Calls::form_reasons, model::specs::Calls::table_reasons, model::specs::Calls::check_says, model::specs::Calls::compare_reasons, model::specs::Calls::compare_says, model::specs::Calls::lend_reasons, model::specs::Calls::lend_says, model::specs::Calls::superfluous_reasons, model::specs::Calls::superfluous_says, record::specs::Told::header_reasons))]

ghost use Rattle.std.specs.Prelude.{◌≡◌, ◌||◌, [], ◌∷◌, ◌+◌, ◌≤◌, ◌<◌, length, leb};
ghost use Rattle.std.specs.Int.Count.{ones};
ghost use Rattle.parts.specs.Handed.{Handed};
ghost use Rattle.model.specs.Tests.{any_pair};
ghost use Rattle.model.specs.Answers.{said_done, said_compared, said_listed, ordered, listed, refuse, answer, number_of_order};
ghost use Rattle.model.specs.Bytes.{table_size, copies_in, table_is_formed};
ghost use Rattle.model.specs.Calls.{check_says, compare_says, unrelated_copies, copy_order, lend_says, lend_gives, lend_place, superfluous_says, superfluous_mask_of};
ghost use Rattle.model.specs.Promises.{Owed};
ghost use Rattle.table.specs.Checked.{copy_is_formed};

use model::{Copies, Order, Refusal};

// Record c of a table is well formed and has own number c.
#[tactic(auto, unfolding(model::specs::Bytes::own_in), using(crate::proofs::Sizes::record_sizes))]
fn copy_formed(t: &[u8], n: usize, c: usize) -> bool
    requires { (2 ≤ n) × (n ≤ 8) × (length t.now ≡ table_size n) × (c < n) }
    ensures { result ≡ copy_is_formed n t.now c }
{
    let r = copies::record_at(t, n, c);
    usize::from(r[3]) == c && record::record_formed(r, n)
}

// Each record of a table is well formed, and record i has own number i.
fn records_formed(t: &[u8], n: usize) -> bool
    requires { (2 ≤ n) × (n ≤ 8) × (length t.now ≡ table_size n) }
    ensures { result ≡ table_is_formed n t.now }
{
    (0..n).all(|c| copy_formed(t, n, c))
}

// Check of a table: refusals 1 to 4.
pub fn check(t: &[u8]) -> Result<(), Refusal>
    ensures { Owed (check_says t.now) [] (said_done result) [] }
{
    let n = record::copies_told(t)?;
    if t.len() != n * record::record_len(n) {
        return Err(Refusal::WrongLength);
    }
    if !records_formed(t, n) {
        return Err(Refusal::NotWellFormed);
    }
    Ok(())
}

// Comparison of copies a and b: refusals 1 to 4, then 5, 7.
pub fn compare(t: &[u8], a: usize, b: usize) -> Result<Order, Refusal>
    ensures { Owed (compare_says t.now a b) [] (said_compared result) [] }
{
    check(t)?;
    let n = usize::from(t[2]);
    if n <= a || n <= b {
        return Err(Refusal::NoSuchCopy);
    }
    copies::compare_copies(t, n, a, b)
}

// The number of a lending: refusals 1 to 4, then 5.
pub fn lend_number(t: &[u8], i: usize) -> Result<(), Refusal>
    ensures { Owed (lend_says t.now i) [] (said_done result) [] }
{
    check(t)?;
    if usize::from(t[2]) <= i {
        return Err(Refusal::NoSuchCopy);
    }
    Ok(())
}

// Lending record i: that part of the table, or the empty part where lend_number refuses. It cannot fail: `lend_hands` of demands says
// what it hands for any input.
pub fn lend(t: &[u8], i: usize) -> &[u8]
    ensures { Handed t.entry.ref_ptr.0 (t.entry.ref_ptr.1 + lend_place t.now i) (lend_gives t.now i) result.ref_ptr result.now }
{
    if lend_number(t, i).is_err() {
        return &t[..0];
    }
    copies::record_at(t, usize::from(t[2]), i)
}

// The list of superfluous copies: refusals 1 to 4, then 7 of any pair.
pub fn list_superfluous(t: &[u8]) -> Result<Copies, Refusal>
    ensures { Owed (superfluous_says t.now) [] (said_listed result) [] }
{
    check(t)?;
    let mask = superfluous::superfluous_mask(t, usize::from(t[2]))?;
    Ok(Copies {
        mask,
        // At most 8: `try_from` would have an Err that cannot come.
        count: mask.count_ones() as u8,
    })
}
