// The smallest symbol that stands in no row of a slice, found in a word that has a bit for each symbol.
#![tactic(auto)]

ghost use Rattle.std.specs.Prelude.{◌≡◌};
ghost use Rattle.parts.specs.Parts.{join};
ghost use Rattle.model.specs.Steps.{new_symbol};
ghost use Rattle.model.specs.Bytes.{row_in_slice};
ghost use Rattle.symbols.specs.Marks.{marks};
ghost use Rattle.free.specs.Ranged.{Ranged};

use slice;

// The word with the bit of each symbol that stands in some row of the slice.
fn used(s: &[u8], n: usize) -> u64
    requires { Ranged n s.now }
    ensures { result ≡ marks 0 (join n (row_in_slice n s.now)) }
{
    let mut w = 0;
    for k in 0..n {
        w = symbols::mark(w, slice::row_in(s, n, k));
    }
    w
}

// The new symbol of an update: the smallest that stands in no row of the slice, which is the lowest bit not set; N² where each is. It
// cannot fail: `free_symbol_fixed` of demands reads its promise. It is at most 64: `try_from` would have an Err that cannot come.
pub fn free_symbol(s: &[u8], n: usize) -> u8
    requires { Ranged n s.now }
    ensures { result ≡ new_symbol n (row_in_slice n s.now) }
{
    used(s, n).trailing_ones().min((n * n) as u32) as u8
}
