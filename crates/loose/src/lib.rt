// The calls on two loose records: compare and meet. None asks anything of its input.
#![tactic(auto)]

ghost use Rattle.std.specs.Prelude.{[], ◌∷◌};
ghost use Rattle.model.specs.Answers.{said_done, said_compared};
ghost use Rattle.model.specs.Calls.{compare_records_says, meet_records_says, meet_records_leaves_first, meet_records_leaves_second};
ghost use Rattle.model.specs.Promises.{Owed};

use model::{Order, Refusal};

// Comparison of two loose records: refusals 1 to 4 of the first, 1 to 4 of the second, then 8, 6, 7.
pub fn compare_records(a: &[u8], b: &[u8]) -> Result<Order, Refusal>
    ensures { Owed (compare_records_says a.now b.now) [] (said_compared result) [] }
{
    record::check_record(a)?;
    record::check_record(b)?;
    let n = usize::from(a[2]);
    let x = usize::from(a[3]);
    let y = usize::from(b[3]);
    if usize::from(b[2]) != n {
        return Err(Refusal::DifferentN);
    }
    if x == y {
        return Err(Refusal::SameCopy);
    }
    pair::compare_pair(a, b, n, x, y)
}

// Meeting of two loose records, the one named first as a. It is refused as their comparison is.
pub fn meet_records(a: &mut [u8], b: &mut [u8]) -> Result<(), Refusal>
    ensures { Owed (meet_records_says a.old b.old) (meet_records_leaves_first a.old b.old ∷ meet_records_leaves_second a.old b.old ∷ []) (said_done result) (a.new ∷ b.new ∷ []) }
{
    compare_records(a, b)?;
    let n = usize::from(a[2]);
    let x = usize::from(a[3]);
    let y = usize::from(b[3]);
    meeting::meet_pair(a, b, n, x, y);
    Ok(())
}
