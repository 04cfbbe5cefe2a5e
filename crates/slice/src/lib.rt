// One slice of a record and one row of a slice, where they stand. Each asks for what the check has shown, in a clause and not by a type
// that carries it: theorems of demands (`row_in_fixed`, `head_in_fixed`, `row_of_fixed`) read these promises on any bytes and numbers.
#![tactic(auto)]

ghost use Rattle.std.specs.Prelude.{◌≡◌, ◌+◌, ◌*◌, ◌<◌, ◌≤◌, length};
ghost use Rattle.parts.specs.Handed.{Handed};
ghost use Rattle.model.specs.Tests.{head};
ghost use Rattle.model.specs.Bytes.{row_in_slice, slice_in, record_rows, record_size, slice_size, row_size};
ghost use Rattle.slice.specs.Shown.{SliceShown, RecordShown, row_place};

// How many bytes a slice of n rows has.
pub fn slice_len(n: usize) -> usize
    requires { n ≤ 8 }
    ensures { result ≡ slice_size n }
{
    n * (n + 1)
}

// Slice p of a record, where it stands.
pub fn slice_at(r: &[u8], n: usize, p: usize) -> &[u8]
    requires { (n ≤ 8) × (length r.now ≡ record_size n) × (p < n) }
    ensures { Handed r.entry.ref_ptr.0 (r.entry.ref_ptr.1 + (4 + p * slice_size n)) (slice_in n r.now p) result.ref_ptr result.now }
{
    parts::part_at(&r[4..], slice_len(n), p)
}

// The symbols of row k of a slice, where they stand.
pub fn row_in(s: &[u8], n: usize, k: usize) -> &[u8]
    requires { SliceShown n s.now × (k < n) }
    ensures { Handed s.entry.ref_ptr.0 (s.entry.ref_ptr.1 + (k * row_size n + 1)) (row_in_slice n s.now k) result.ref_ptr result.now }
{
    row::symbols(parts::part_at(s, n + 1, k))
}

// The head of row k of a slice.
pub fn head_in(s: &[u8], n: usize, k: usize) -> u8
    requires { SliceShown n s.now × (k < n) }
    ensures { result ≡ head (row_in_slice n s.now k) }
{
    row_in(s, n, k)[0]
}

// The symbols of row k of slice p of a record, where they stand.
pub fn row_of(r: &[u8], n: usize, p: usize, k: usize) -> &[u8]
    requires { RecordShown n r.now × (p < n) × (k < n) }
    ensures { Handed r.entry.ref_ptr.0 (r.entry.ref_ptr.1 + row_place n p k) (record_rows n r.now p k) result.ref_ptr result.now }
{
    row_in(slice_at(r, n, p), n, k)
}
