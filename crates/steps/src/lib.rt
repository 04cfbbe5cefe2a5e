// The calls that change a table: update of a copy, meeting of two. None asks anything of its input.
#![tactic(auto)]

ghost use Rattle.std.specs.Prelude.{[], ◌∷◌};
ghost use Rattle.model.specs.Answers.{said_done};
ghost use Rattle.model.specs.Calls.{update_says, update_leaves, meet_says, meet_leaves};
ghost use Rattle.model.specs.Promises.{Owed};

use model::Refusal;

// Update of copy p: refusals 1 to 4, then 5.
pub fn update(t: &mut [u8], p: usize) -> Result<(), Refusal>
    ensures { Owed (update_says t.old p) (update_leaves t.old p ∷ []) (said_done result) (t.new ∷ []) }
{
    table::lend_number(t, p)?;
    let n = usize::from(t[2]);
    updating::update_in(t, n, p);
    Ok(())
}

// Meeting of copies a and b, a named first: refusals 1 to 4, then 5, 6, 7; no copy is unrelated to itself, so 6 may be tested last.
pub fn meet(t: &mut [u8], a: usize, b: usize) -> Result<(), Refusal>
    ensures { Owed (meet_says t.old a b) (meet_leaves t.old a b ∷ []) (said_done result) (t.new ∷ []) }
{
    table::compare(t, a, b)?;
    if a == b {
        return Err(Refusal::SameCopy);
    }
    let n = usize::from(t[2]);
    meeting_table::meet_in(t, n, a, b);
    Ok(())
}
