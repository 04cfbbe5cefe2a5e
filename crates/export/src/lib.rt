// The calls of document 01 under C names. C takes no `Result`: each returns 0 where the call is done or answered, else the refusal's
// number; an out-parameter keeps its value at a refusal. None asks anything of its input. c/stamps.h declares them for C.
#![tactic(auto)]

ghost use Rattle.std.specs.Prelude.{◌≡◌, List, [], ◌∷◌, length};
ghost use Rattle.model.specs.Answers.{said_done, said_compared};
ghost use Rattle.model.specs.Calls.{fresh_says, fresh_leaves, check_says, update_says, update_leaves, meet_says, meet_leaves, compare_says, lend_says, lend_gives, lend_place, superfluous_says, check_record_says, compare_records_says, meet_records_says, meet_records_leaves_first, meet_records_leaves_second, read_says, read_gives, write_says, write_leaves};
ghost use Rattle.export.specs.Exported.{number_of, values, given, passed, Exported};

use model::{Order, Refusal, Rows};

// The number to return for a call that is done or refused.
fn number(answer: Result<(), Refusal>) -> u8
    ensures { result ≡ number_of (said_done answer) }
{
    match answer {
        Ok(()) => 0,
        Err(refusal) => u8::from(refusal),
    }
}

// The number to return for a comparison; the order's number is put where there is one.
fn number_beside(answer: Result<Order, Refusal>, order: &mut u8) -> u8
    ensures { Exported (said_compared answer) (given (said_compared answer) (order.old ∷ []) (values (said_compared answer))) [] result (order.new ∷ []) [] }
{
    match answer {
        Ok(found) => {
            *order = u8::from(found);
            0
        }
        Err(refusal) => u8::from(refusal),
    }
}

// Make a fresh table of n copies.
#[unsafe(no_mangle)]
pub extern "C" fn stamp_make_fresh(t: &mut [u8], n: usize) -> u8
    ensures { Exported (fresh_says t.old n) [] (fresh_leaves t.old n ∷ []) result [] (t.new ∷ []) }
{
    number(fresh::make_fresh(t, n))
}

// Check of a table.
#[unsafe(no_mangle)]
pub extern "C" fn stamp_check(t: &[u8]) -> u8
    ensures { Exported (check_says t.now) [] [] result [] [] }
{
    number(table::check(t))
}

// Update of copy p.
#[unsafe(no_mangle)]
pub extern "C" fn stamp_update(t: &mut [u8], p: usize) -> u8
    ensures { Exported (update_says t.old p) [] (update_leaves t.old p ∷ []) result [] (t.new ∷ []) }
{
    number(steps::update(t, p))
}

// Meeting of copies a and b, a named first.
#[unsafe(no_mangle)]
pub extern "C" fn stamp_meet(t: &mut [u8], a: usize, b: usize) -> u8
    ensures { Exported (meet_says t.old a b) [] (meet_leaves t.old a b ∷ []) result [] (t.new ∷ []) }
{
    number(steps::meet(t, a, b))
}

// Comparison of copies a and b: the order's number.
#[unsafe(no_mangle)]
pub extern "C" fn stamp_compare(t: &[u8], a: usize, b: usize, order: &mut u8) -> u8
    ensures { Exported (compare_says t.now a b) (given (compare_says t.now a b) (order.old ∷ []) (values (compare_says t.now a b))) [] result (order.new ∷ []) [] }
{
    number_beside(table::compare(t, a, b), order)
}

// Lending record i: where it starts in the table, and how long it is.
#[unsafe(no_mangle)]
pub extern "C" fn stamp_lend(t: &[u8], i: usize, start: &mut usize, size: &mut usize) -> u8
    ensures { Exported (lend_says t.now i) (given (lend_says t.now i) (start.old ∷ size.old ∷ []) (lend_place t.now i ∷ length (lend_gives t.now i) ∷ [])) [] result (start.new ∷ size.new ∷ []) [] }
{
    let part = table::lend(t, i);
    if part.is_empty() {
        return number(table::lend_number(t, i));
    }
    *start = i * part.len();
    *size = part.len();
    0
}

// The list of superfluous copies: bit i of the mask for copy i, and the number of ones.
#[unsafe(no_mangle)]
pub extern "C" fn stamp_superfluous(t: &[u8], mask: &mut u8, count: &mut u8) -> u8
    ensures { Exported (superfluous_says t.now) (given (superfluous_says t.now) (mask.old ∷ count.old ∷ []) (values (superfluous_says t.now))) [] result (mask.new ∷ count.new ∷ []) [] }
{
    // A closure that sets the out-parameters would be longer than this `match`.
    match table::list_superfluous(t) {
        Ok(copies) => {
            *mask = copies.mask;
            *count = copies.count;
            0
        }
        Err(refusal) => u8::from(refusal),
    }
}

// Check of one loose record.
#[unsafe(no_mangle)]
pub extern "C" fn stamp_check_record(r: &[u8]) -> u8
    ensures { Exported (check_record_says r.now) [] [] result [] [] }
{
    number(record::check_record(r))
}

// Comparison of two loose records: the order's number.
#[unsafe(no_mangle)]
pub extern "C" fn stamp_compare_records(a: &[u8], b: &[u8], order: &mut u8) -> u8
    ensures { Exported (compare_records_says a.now b.now) (given (compare_records_says a.now b.now) (order.old ∷ []) (values (compare_records_says a.now b.now))) [] result (order.new ∷ []) [] }
{
    number_beside(loose::compare_records(a, b), order)
}

// Meeting of two loose records, the one named first as a.
#[unsafe(no_mangle)]
pub extern "C" fn stamp_meet_records(a: &mut [u8], b: &mut [u8]) -> u8
    ensures { Exported (meet_records_says a.old b.old) [] (meet_records_leaves_first a.old b.old ∷ meet_records_leaves_second a.old b.old ∷ []) result [] (a.new ∷ b.new ∷ []) }
{
    number(loose::meet_records(a, b))
}

// Reading of one loose record: N, own number, and the lengths and cells of its rows.
#[unsafe(no_mangle)]
pub extern "C" fn stamp_read_rows(
    r: &[u8],
    n: &mut usize,
    own: &mut usize,
    lengths: &mut [u8; 64],
    cells: &mut [u8; 512],
) -> u8
    ensures { Exported (read_says r.now) (given (read_says r.now) (n.old ∷ own.old ∷ []) ((read_gives r.now).n ∷ (read_gives r.now).own ∷ [])) (given (read_says r.now) (lengths.old ∷ cells.old ∷ []) ((read_gives r.now).lengths ∷ (read_gives r.now).cells ∷ [])) result (n.new ∷ own.new ∷ []) (lengths.new ∷ cells.new ∷ []) }
{
    // A closure that sets the out-parameters would be longer than this `match`.
    match reading::read_rows(r) {
        Ok(rows) => {
            *n = rows.n;
            *own = rows.own;
            lengths.copy_from_slice(&rows.lengths);
            cells.copy_from_slice(&rows.cells);
            0
        }
        Err(refusal) => u8::from(refusal),
    }
}

// Writing of rows into a lent buffer.
#[unsafe(no_mangle)]
pub extern "C" fn stamp_write_rows(
    r: &mut [u8],
    n: usize,
    own: usize,
    lengths: &[u8; 64],
    cells: &[u8; 512],
) -> u8
    ensures { Exported (write_says r.old (passed n own lengths.now cells.now)) [] (write_leaves r.old (passed n own lengths.now cells.now) ∷ []) result [] (r.new ∷ []) }
{
    let rows = Rows {
        n,
        own,
        lengths: *lengths,
        cells: *cells,
    };
    number(writing::write_rows(r, rows))
}
