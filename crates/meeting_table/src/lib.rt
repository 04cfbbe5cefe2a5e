// The meeting of two copies of one table, written in place: of the table the parts where records a and b stand are lent on to the meeting
// of two records.
#![tactic(auto)]

ghost use Rattle.std.specs.Prelude.{◌≡◌};
ghost use Rattle.model.specs.Steps.{met_table};
ghost use Rattle.model.specs.Bytes.{table_bytes, table_rows};
ghost use Rattle.meeting_table.specs.Named.{Named};

// The meeting of copies a and b of a table, a named first.
pub fn meet_in(t: &mut [u8], n: usize, a: usize, b: usize)
    requires { Named n a b t.old }
    ensures { t.new ≡ table_bytes n (met_table n a b (table_rows n t.old)) }
{
    let size = record::record_len(n);
    let low = a.min(b) * size;
    let (front, back) = t.split_at_mut(a.max(b) * size);
    // As in `fresh` and `updating`, a function for such a part would need a clause on the loan.
    let lower = &mut front[low..low + size];
    let upper = &mut back[..size];
    if a < b {
        meeting::meet_pair(lower, upper, n, a, b);
    } else {
        meeting::meet_pair(upper, lower, n, a, b);
    }
}
