// Two records side by side: the answer of each slice, and the comparison. The pair is five parameters and a clause, not a type:
// `winning_hands` and `compare_pair_fixed` of demands read these promises by their parameters.
#![tactic(auto)]

ghost use Rattle.std.specs.Prelude.{◌≡◌, cond, ◌+◌, ◌<◌, length};
ghost use Rattle.parts.specs.Handed.{Handed};
ghost use Rattle.model.specs.Steps.{slice_answer_of, answer_at_slice, order_of, winning_row};
ghost use Rattle.model.specs.Bytes.{record_rows};
ghost use Rattle.slice.specs.Shown.{row_place};
ghost use Rattle.pair.specs.Pair.{PairShown, pair_compared, b_wins_slice};

use model::{Order, Refusal, SliceAnswer};

// The answer of the principal rows x of a and y of b.
#[tactic(auto, using(slice::specs::Places::head_first), unfolding(model::specs::Steps::slice_answer_of))]
pub fn slice_answer(x: &[u8], y: &[u8]) -> SliceAnswer
    requires { (0 < length x.now) × (0 < length y.now) }
    ensures { result ≡ slice_answer_of x.now y.now }
{
    let (a, b) = (x[0], y[0]);
    if a == b {
        return SliceAnswer::Level;
    }
    match (row::among(y, a), row::among(x, b)) {
        (true, false) => SliceAnswer::Behind,
        (false, true) => SliceAnswer::Ahead,
        (true, true) | (false, false) => SliceAnswer::Unrelated,
    }
}

// The answer of slice p of record x with own number a against record y with own number b.
#[tactic(auto, using(slice::specs::Places::row_of_length), unfolding(model::specs::Steps::answer_at_slice))]
pub fn answer_at(x: &[u8], y: &[u8], n: usize, a: usize, b: usize, p: usize) -> SliceAnswer
    requires { PairShown n a b x.now y.now × (p < n) }
    ensures { result ≡ answer_at_slice a b (record_rows n x.now) (record_rows n y.now) p }
{
    slice_answer(slice::row_of(x, n, p, a), slice::row_of(y, n, p, b))
}

// The order of a pair of which so many slices are behind and so many ahead.
fn order_of(behind: usize, ahead: usize) -> Order
    ensures { result ≡ order_of behind ahead }
{
    match (behind, ahead) {
        (0, 0) => Order::Equal,
        (_, 0) => Order::Older,
        (0, _) => Order::Newer,
        _ => Order::Conflicting,
    }
}

// The comparison of two checked records: refusal 7 at an unrelated slice, the order otherwise.
pub fn compare_pair(x: &[u8], y: &[u8], n: usize, a: usize, b: usize) -> Result<Order, Refusal>
    requires { PairShown n a b x.now y.now }
    ensures { result ≡ pair_compared n a b (record_rows n x.now) (record_rows n y.now) }
{
    let mut behind = 0;
    let mut ahead = 0;
    for p in 0..n {
        let s = answer_at(x, y, n, a, b, p);
        // Document 01 asks for `let .. else` at the unrelated case.
        let (SliceAnswer::Level | SliceAnswer::Behind | SliceAnswer::Ahead) = s else {
            return Err(Refusal::UnrelatedSlice);
        };
        behind += usize::from(s == SliceAnswer::Behind);
        ahead += usize::from(s == SliceAnswer::Ahead);
    }
    Ok(order_of(behind, ahead))
}

// b wins slice p if a's head is in b's principal row, so b wins a level slice.
#[tactic(auto, using(slice::specs::Places::row_of_length, slice::specs::Places::head_first), unfolding(model::specs::Steps::b_is_winner))]
pub fn b_wins(x: &[u8], y: &[u8], n: usize, a: usize, b: usize, p: usize) -> bool
    requires { PairShown n a b x.now y.now × (p < n) }
    ensures { result ≡ b_wins_slice a b p (record_rows n x.now) (record_rows n y.now) }
{
    row::among(slice::row_of(y, n, p, b), slice::row_of(x, n, p, a)[0])
}

// The winning principal row W of slice p, its symbols only, as a part of the record it stands in.
#[tactic(auto, using(slice::specs::Places::row_of_length, slice::specs::Places::head_first), unfolding(model::specs::Steps::b_is_winner, model::specs::Steps::winning_row))]
pub fn winning<'a>(x: &'a [u8], y: &'a [u8], n: usize, a: usize, b: usize, p: usize) -> &'a [u8]
    requires { PairShown n a b x.now y.now × (p < n) }
    ensures { Handed
        (cond (b_wins_slice a b p (record_rows n x.now) (record_rows n y.now)) y.entry.ref_ptr.0 x.entry.ref_ptr.0)
        (cond (b_wins_slice a b p (record_rows n x.now) (record_rows n y.now)) (y.entry.ref_ptr.1 + row_place n p b) (x.entry.ref_ptr.1 + row_place n p a))
        (winning_row a b (record_rows n x.now p) (record_rows n y.now p))
        result.ref_ptr result.now }
{
    if b_wins(x, y, n, a, b, p) {
        slice::row_of(y, n, p, b)
    } else {
        slice::row_of(x, n, p, a)
    }
}
