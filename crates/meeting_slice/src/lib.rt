// One slice of the meeting of two records: its new heads, the cut row, its new rows. `met` reads all of the slice in both records and gives
// both results by value; nothing is written here.
#![tactic(auto)]

ghost use Rattle.std.specs.Prelude.{◌≡◌, ◌<◌, length, take};
ghost use Rattle.parts.specs.Parts.{join};
ghost use Rattle.row.specs.Tab.{tab};
ghost use Rattle.model.specs.Steps.{is_named};
ghost use Rattle.model.specs.Bytes.{row_in_slice, record_rows, row_size, slice_size};
ghost use Rattle.slice.specs.Shown.{SliceShown, SliceShown-prop};
ghost use Rattle.pair.specs.Pair.{PairShown};
ghost use Rattle.meeting_slice.specs.NewRows.{head_from, chosen_row};
ghost use Rattle.meeting_slice.specs.Met.{MetSlices};

use arrayvec::ArrayVec;

// One slice of two records side by side, seen from one of them.
#[derive(Clone, Copy)]
struct Sides<'a> {
    own: &'a [u8],
    other: &'a [u8],
    n: usize,
    a: usize,
    b: usize,
    ghost own_shown: { SliceShown n own.now } by { SliceShown-prop n own.now },
    ghost other_shown: { SliceShown n other.now } by { SliceShown-prop n other.now },
}

impl<'a> Sides<'a> {
    // Row k is one of the principal rows a and b.
    #[tactic(auto, unfolding(model::specs::Steps::is_named))]
    fn is_principal(&self, k: usize) -> bool
        ensures { result ≡ is_named self.now.a self.now.b k }
    {
        k == self.a || k == self.b
    }

    // The new head of row k where `own` loses and `other` wins: for rows a and b, the head of W.
    #[tactic(auto, using(slice::specs::Places::head_first), unfolding(crate::specs::NewRows::head_from))]
    fn new_head(&self, w: &[u8], k: usize) -> u8
        requires { (0 < length w.now) × (k < self.now.n) }
        ensures { result ≡ head_from self.now.a self.now.b w.now (row_in_slice self.now.n self.now.own.now) (row_in_slice self.now.n self.now.other.now) k }
    {
        if self.is_principal(k) {
            return w[0];
        }
        let loser_head = slice::head_in(self.own, self.n, k);
        let winner_head = slice::head_in(self.other, self.n, k);
        row::new_head(w, loser_head, winner_head)
    }

    // The new heads of the slice's rows where `own` loses and `other` wins.
    #[tactic(auto, using(row::specs::Tab::tab_next), unfolding(row::specs::Tab::tab))]
    fn new_heads(&self, w: &[u8]) -> ArrayVec<u8, 8>
        requires { 0 < length w.now }
        ensures { result.items ≡ tab self.now.n (head_from self.now.a self.now.b w.now (row_in_slice self.now.n self.now.own.now) (row_in_slice self.now.n self.now.other.now)) }
    {
        let mut heads = ArrayVec::new();
        for k in 0..self.n {
            heads.push(self.new_head(w, k));
        }
        heads
    }

    // The new row k of `own`: the cut row for rows a and b. Else the record keeps its own row if its head didn't change, or takes the
    // other record's.
    #[tactic(auto, using(slice::specs::Places::row_whole, slice::specs::Places::row_long), unfolding(crate::specs::NewRows::chosen_row, model::specs::Steps::cached_row_of))]
    fn new_row(&self, heads: &[u8], cut: &'a [u8], k: usize) -> &'a [u8]
        requires { (length heads.now ≡ self.now.n) × (length cut.now ≡ row_size self.now.n) × (k < self.now.n) }
        ensures row { result.now ≡ chosen_row self.now.n self.now.a self.now.b self.now.own.now self.now.other.now heads.now cut.now k }
        ensures wide { length result.now ≡ row_size self.now.n }
    {
        if self.is_principal(k) {
            return cut;
        }
        if slice::head_in(self.own, self.n, k) == heads[k] {
            return parts::part_at(self.own, self.n + 1, k);
        }
        parts::part_at(self.other, self.n + 1, k)
    }

    // The new rows of the slice of `own`, one behind another, in an array, which is what `met` gives.
    #[tactic(auto, unfolding(parts::specs::Parts::join))]
    fn new_rows(&self, heads: &[u8], cut: &'a [u8]) -> [u8; 72]
        requires { (length heads.now ≡ self.now.n) × (length cut.now ≡ row_size self.now.n) }
        ensures { take (slice_size self.now.n) result ≡ join self.now.n (chosen_row self.now.n self.now.a self.now.b self.now.own.now self.now.other.now heads.now cut.now) }
    {
        let mut rows = [0; 72];
        for k in 0..self.n {
            parts::copy(&mut rows, k * (self.n + 1), self.new_row(heads, cut, k));
        }
        rows
    }
}

// Slice p of both records after their meeting, a's and b's: every head and row of it is read here, and nothing is written. Its
// parameters and two arrays are read by `met_fixed` of demands.
#[tactic(auto, using(crate::specs::NewRows::winning_length))]
pub fn met(x: &[u8], y: &[u8], n: usize, a: usize, b: usize, p: usize) -> ([u8; 72], [u8; 72])
    requires { PairShown n a b x.now y.now × (p < n) }
    ensures { MetSlices n a b p (record_rows n x.now) (record_rows n y.now) result.0 result.1 }
{
    let first = Sides {
        own: slice::slice_at(x, n, p),
        other: slice::slice_at(y, n, p),
        n,
        a,
        b,
    };
    let second = Sides {
        own: first.other,
        other: first.own,
        n,
        a,
        b,
    };
    let w = pair::winning(x, y, n, a, b, p);
    let loser = if pair::b_wins(x, y, n, a, b, p) {
        &first
    } else {
        &second
    };
    let heads = loser.new_heads(w);
    let cut = row::cut_row(w, &heads);
    let cut = &cut[..n + 1];
    let u = first.new_rows(&heads, cut);
    let v = second.new_rows(&heads, cut);
    (u, v)
}
