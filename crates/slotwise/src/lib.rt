// Images worked on slot by slot: sum, difference, product, inverses; the first slot that is zero; whether two lists are equal.
#![tactic(auto)]

ghost use Rattle.std.specs.Prelude.{◌≡◌, ℕ, length, get_or, position};
ghost use Rattle.lists.specs.Tab.{tab};
ghost use Rattle.lists.specs.Every.{equal};
ghost use Rattle.residue.specs.Residues.{Residues};
ghost use Rattle.algebra.specs.SlotBySlot.{plus, minus, times, inverses, is_zero};

use residue::Residue;

// Each slot of `out` becomes the step of what a and b hold there; f is what the step computes.
fn slot_by_slot<F: Fn(Residue, Residue) -> Residue>(a: &[u16], b: &[u16], out: &mut [u16], step: F)
    ghost f: { ℕ → ℕ → ℕ }
    requires residues { Residues (length out.old) a.now × Residues (length out.old) b.now }
    requires callable { F.IsAlwaysCallable step }
    requires computes { (x y r : Residue) → F.post step x y r → r.value ≡ f x.value y.value }
    ensures { out.new ≡ tab (length out.old) (λ k. f (get_or a.now k 0) (get_or b.now k 0)) }
{
    // The other lists are read by the place: of what a `zip` of `iter_mut` writes, a proof knows no more than the length.
    for (i, slot) in out.iter_mut().enumerate() {
        let x = Residue { value: a[i] };
        let y = Residue { value: b[i] };
        *slot = step(x, y).value;
    }
}

// a + b, slot by slot.
#[tactic(auto, unfolding(algebra::specs::SlotBySlot::plus))]
pub fn plus(a: &[u16], b: &[u16], out: &mut [u16])
    requires { Residues (length out.old) a.now × Residues (length out.old) b.now }
    ensures { out.new ≡ plus (length out.old) a.now b.now }
{
    slot_by_slot(a, b, out, Residue::add);
}

// a - b
#[tactic(auto, unfolding(algebra::specs::SlotBySlot::minus))]
pub fn minus(a: &[u16], b: &[u16], out: &mut [u16])
    requires { Residues (length out.old) a.now × Residues (length out.old) b.now }
    ensures { out.new ≡ minus (length out.old) a.now b.now }
{
    slot_by_slot(a, b, out, Residue::sub);
}

// a b
#[tactic(auto, unfolding(algebra::specs::SlotBySlot::times))]
pub fn times(a: &[u16], b: &[u16], out: &mut [u16])
    requires { Residues (length out.old) a.now × Residues (length out.old) b.now }
    ensures { out.new ≡ times (length out.old) a.now b.now }
{
    slot_by_slot(a, b, out, Residue::mul);
}

// 1/a. The inverse of 0 is given as 0; no caller may rest on it.
#[tactic(auto, unfolding(algebra::specs::SlotBySlot::inverses))]
pub fn invert(a: &[u16], out: &mut [u16])
    requires { Residues (length out.old) a.now }
    ensures { out.new ≡ inverses (length out.old) a.now }
{
    slot_by_slot(a, a, out, |x, _| x.inv());
}

// The place of the first slot that is zero.
#[tactic(auto, unfolding(algebra::specs::SlotBySlot::is_zero))]
pub fn first_zero(a: &[u16]) -> Option<usize>
    ensures { result ≡ position is_zero a.now }
{
    a.iter().position(|x| *x == 0)
}

// It does not stop at the first difference: all places are read, so that the number of turns tells nothing of where the lists differ.
pub fn same(a: &[u16], b: &[u16]) -> bool
    requires { length a.now ≡ length b.now }
    ensures { result ≡ equal a.now b.now }
{
    let mut same = true;
    for (x, y) in a.iter().zip(b) {
        same = (x == y) & same;
    }
    same
}
