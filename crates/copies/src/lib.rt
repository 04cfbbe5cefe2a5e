// The copies of a checked table: the record of each where it stands, how two compare, which are superfluous. What the check has shown
// stands in clauses, not in a type: `compare_copies_fixed` and `against_others_fixed` of demands read them on any bytes.
#![tactic(auto)]

ghost use Rattle.std.specs.Prelude.{◌≡◌, ◌+◌, ◌*◌, ◌<◌, ◌≤◌, length};
ghost use Rattle.parts.specs.Handed.{Handed};
ghost use Rattle.model.specs.Steps.{is_covered};
ghost use Rattle.model.specs.Bytes.{record_size, table_size, record_in, table_rows};
ghost use Rattle.pair.specs.Pair.{pair_compared};
ghost use Rattle.copies.specs.Copies.{TableShown, apart_from, covered_by, cover_of};

use model::{Order, Refusal};

// Record c of a table of n records, where it stands.
#[tactic(auto, using(parts::specs::Parts::room), unfolding(model::specs::Bytes::record_in))]
pub fn record_at(t: &[u8], n: usize, c: usize) -> &[u8]
    requires { (n ≤ 8) × (length t.now ≡ table_size n) × (c < n) }
    ensures { Handed t.entry.ref_ptr.0 (t.entry.ref_ptr.1 + c * record_size n) (record_in n t.now c) result.ref_ptr result.now }
{
    parts::part_at(t, record::record_len(n), c)
}

// The comparison of copies a and b.
#[tactic(auto, unfolding(model::specs::Bytes::table_rows))]
pub fn compare_copies(t: &[u8], n: usize, a: usize, b: usize) -> Result<Order, Refusal>
    requires { TableShown n t.now × (a < n) × (b < n) }
    ensures { result ≡ pair_compared n a b (table_rows n t.now a) (table_rows n t.now b) }
{
    pair::compare_pair(record_at(t, n, a), record_at(t, n, b), n, a, b)
}

// The order of a copy against another says that the other is equal or newer.
fn covers(o: Order) -> bool
    ensures { result ≡ is_covered o }
{
    matches!(o, Order::Equal | Order::Older)
}

// Some other copy is equal to copy i or newer. Refusal 7 where one is unrelated to it.
pub fn against_others(t: &[u8], n: usize, i: usize) -> Result<bool, Refusal>
    requires { TableShown n t.now × (i < n) }
    ensures { result ≡ cover_of (apart_from n (table_rows n t.now) i n) (covered_by n (table_rows n t.now) i n) }
{
    let mut covered = false;
    for j in 0..n {
        if j != i {
            covered |= covers(compare_copies(t, n, i, j)?);
        }
    }
    Ok(covered)
}
