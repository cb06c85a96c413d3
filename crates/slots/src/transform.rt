// The transform: each slot by its value. Exponents of GENERATOR are numbers below 3456.
ghost use Rattle.std.specs.Prelude.{◌≡◌, ◌+◌, ◌*◌, ◌%◌, ◌<◌, length};
ghost use Rattle.residue.specs.Field.{generator, addq, mulq, powq};
ghost use Rattle.residue.specs.Residues.{Residues};
ghost use Rattle.algebra.specs.Transform.{exponent, value, image};
ghost use Rattle.slots.specs.Engines.{size, root};

use crate::engine::Engine;
use residue::Residue;
use ring::plus_product;

// The sum of two exponents of GENERATOR.
pub(crate) fn advance(at: usize, by: usize) -> usize
    requires { (at < 3456) × (by < 3456) }
    ensures { result ≡ (at + by) % 3456 }
{
    let next = at + by;
    if next < 3456 { next } else { next - 3456 }
}

// The exponent e of slot k: the slot is the value at w^e.
fn exponent(k: usize) -> usize
    requires { k < 1152 }
    ensures { result ≡ exponent k }
{
    if k % 2 == 0 { 3 * k + 1 } else { 3 * k + 2 }
}

// The exponent of GENERATOR at the point w^e of slot k, w being the power `step` of GENERATOR.
fn slot_log(step: usize, k: usize) -> usize
    requires { (k < 1152) × (step * exponent k < 3456) }
    ensures { result ≡ step * exponent k }
{
    step * exponent(k)
}

impl Engine {
    // sum + x g^at, g being GENERATOR.
    pub(crate) fn plus_term(&self, sum: Residue, x: Residue, at: usize) -> Residue
        requires { at < 3456 }
        ensures { result.value ≡ addq sum.value (mulq x.value (powq generator at)) }
    {
        plus_product(sum, x, powers::power(&self.powers, at))
    }

    // The value of a at the power `log` of GENERATOR.
    fn value(&self, a: &[u16], log: usize) -> Residue
        requires { Residues (length a.now) a.now × (log < 3456) }
        ensures { result.value ≡ value (length a.now) a.now (powq generator log) }
    {
        let mut sum = Residue::ZERO;
        let mut at = 0;
        for x in a {
            sum = self.plus_term(sum, Residue { value: *x }, at);
            at = advance(at, log);
        }
        sum
    }

    // Slot k is the value of a at its point. Never inlined, so that all calls share one copy of the loop: how long a turn takes depends on
    // where in a program the loop stands.
    #[inline(never)]
    pub fn transform(&self, a: &[u16], out: &mut [u16])
        requires { Residues (size self.now) a.now × (length out.old ≡ size self.now) }
        ensures { out.new ≡ image self.now.half (root self.now) a.now }
    {
        for (k, slot) in out.iter_mut().enumerate() {
            *slot = self.value(a, slot_log(self.step, k)).value;
        }
    }
}
