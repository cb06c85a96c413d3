// The plain product on slices of n = 2h residues: schoolbook, folded by x^n = x^(n/2) - 1.
#![tactic(auto)]

ghost use Rattle.std.specs.Prelude.{◌≡◌, ◌+◌, ◌-◌, ◌<◌, ◌≤◌, length, get_or};
ghost use Rattle.residue.specs.Field.{addq, subq, mulq};
ghost use Rattle.residue.specs.Residues.{Residues};
ghost use Rattle.algebra.specs.Numbers.{residues, sum};
ghost use Rattle.algebra.specs.Product.{coefficient, schoolbook, product};

use residue::Residue;

// One product more in a sum.
pub fn plus_product(sum: Residue, x: Residue, y: Residue) -> Residue
    ensures { result.value ≡ addq sum.value (mulq x.value y.value) }
{
    sum.add(x.mul(y))
}

// The sum of a_i b_(m - i) over the places i below `end`. Below `from` b_(m - i) is past the end of b, and counts nothing. Never inlined,
// so that all coefficients share one copy of the loop: how long a turn takes depends on where in a program the loop stands.
#[inline(never)]
fn dot(a: &[u16], b: &[u16], m: usize, from: usize, end: usize) -> Residue
    requires residues { Residues (length a.now) a.now × Residues (length b.now) b.now }
    requires from_value { (from ≡ m + 1 - length b.now) × (from ≤ end) × (end ≤ length a.now) × (end ≤ m + 1) }
    ensures { result.value ≡ sum residues end (λ i. mulq (get_or a.now i 0) (get_or b.now (m - i) 0)) }
{
    // By the index: the rule is said of the places i and m - i.
    let mut sum = Residue::ZERO;
    for i in from..end {
        let x = Residue { value: a[i] };
        let y = Residue { value: b[m - i] };
        sum = plus_product(sum, x, y);
    }
    sum
}

// The coefficient at x^m before folding.
fn coefficient(n: usize, a: &[u16], b: &[u16], m: usize) -> Residue
    requires { Residues n a.now × Residues n b.now × (m < n + n) }
    ensures { result.value ≡ schoolbook residues (coefficient residues a.now) (coefficient residues b.now) m }
{
    if m < n {
        dot(a, b, m, 0, m + 1)
    } else {
        dot(a, b, m, m + 1 - n, n)
    }
}

// At x^i: c_i - c_(n + i) - c_(3h + i), by x^(n + i) = x^(h + i) - x^i and x^(3h + i) = -x^i.
fn fold_low(own: Residue, next: Residue, last: Residue) -> Residue
    ensures { result.value ≡ subq own.value (addq next.value last.value) }
{
    own.sub(next.add(last))
}

// At x^(h + i): c_(h + i) + c_(n + i).
fn fold_high(own: Residue, next: Residue) -> Residue
    ensures { result.value ≡ addq own.value next.value }
{
    own.add(next)
}

// Places i and h + i in one turn, by their index, so that each of the 2n coefficients before folding is made once.
pub fn product(half: usize, a: &[u16], b: &[u16], out: &mut [u16])
    requires { Residues (half + half) a.now × Residues (half + half) b.now × (length out.old ≡ half + half) }
    ensures { out.new ≡ product residues half a.now b.now }
{
    let n = half + half;
    for i in 0..half {
        let first = coefficient(n, a, b, i);
        let second = coefficient(n, a, b, half + i);
        let third = coefficient(n, a, b, n + i);
        let fourth = coefficient(n, a, b, n + (half + i));
        out[i] = fold_low(first, third, fourth).value;
        out[half + i] = fold_high(second, third).value;
    }
}
