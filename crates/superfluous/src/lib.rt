// The superfluous copies of a checked table, as a mask. The clause is read by `superfluous_mask_fixed` of demands.
#![tactic(auto)]

ghost use Rattle.std.specs.Prelude.{◌≡◌};
ghost use Rattle.model.specs.Bytes.{table_rows};
ghost use Rattle.copies.specs.Copies.{TableShown};
ghost use Rattle.superfluous.specs.Mask.{masked};

use model::Refusal;

// The mask with bit i for each superfluous copy i. Refusal 7 where some pair of copies has an unrelated slice.
pub fn superfluous_mask(t: &[u8], n: usize) -> Result<u8, Refusal>
    requires { TableShown n t.now }
    ensures { result ≡ masked n (table_rows n t.now) }
{
    let mut mask = 0;
    for i in 0..n {
        if copies::against_others(t, n, i)? {
            mask |= 1 << i;
        }
    }
    Ok(mask)
}
