// Equal parts of a lent list: one handed back, one written. specs/ has the definitions and their laws.
#![tactic(auto)]

ghost use Rattle.std.specs.Prelude.{◌≡◌, ◌+◌, ◌*◌, ◌≤◌, length};
ghost use Rattle.parts.specs.Parts.{part};
ghost use Rattle.parts.specs.Handed.{Handed};
ghost use Rattle.parts.specs.Written.{written};

// Part k of a list that is cut into parts of w bytes, where it stands.
pub fn part_at(s: &[u8], w: usize, k: usize) -> &[u8]
    requires { k * w + w ≤ length s.now }
    ensures { Handed s.entry.ref_ptr.0 (s.entry.ref_ptr.1 + k * w) (part w k s.now) result.ref_ptr result.now }
{
    let a = k * w;
    &s[a..a + w]
}

// The bytes of `src` into `dst`, from `at` on.
pub fn copy(dst: &mut [u8], at: usize, src: &[u8])
    requires { at + length src.now ≤ length dst.old }
    ensures { dst.new ≡ written at src.now dst.old }
{
    dst[at..at + src.len()].copy_from_slice(src);
}
