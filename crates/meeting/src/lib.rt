// The meeting of two records, written over them, slice by slice. Both new slices are there by value before one byte is written. The
// clauses are read by `put_slice_fixed` and `meet_pair_fixed` of demands.
#![tactic(auto)]

ghost use Rattle.std.specs.Prelude.{◌≡◌, ◌+◌, ◌*◌, ◌<◌, ◌≤◌, length};
ghost use Rattle.parts.specs.Written.{written};
ghost use Rattle.model.specs.Bytes.{header_size, slice_size, record_size};
ghost use Rattle.meeting.specs.Pairs.{WellPair, PairMet};

// Slice p of a record is written into its place.
pub fn put_slice(r: &mut [u8], n: usize, p: usize, v: &[u8])
    requires { (n ≤ 8) × (length r.old ≡ record_size n) × (p < n) × (length v.now ≡ slice_size n) }
    ensures { r.new ≡ written (header_size + p * slice_size n) v.now r.old }
{
    parts::copy(r, 4 + p * slice::slice_len(n), v);
}

// The meeting of record x with own number a and record y with own number b, a named first.
pub fn meet_pair(x: &mut [u8], y: &mut [u8], n: usize, a: usize, b: usize)
    requires { WellPair n a b x.old y.old }
    ensures { PairMet n a b x.old y.old x.new y.new }
{
    let w = slice::slice_len(n);
    for p in 0..n {
        let (u, v) = meeting_slice::met(x, y, n, a, b, p);
        put_slice(x, n, p, &u[..w]);
        put_slice(y, n, p, &v[..w]);
    }
}
