// The reverse of the transform: the coefficients by the sums S_j over the slots.
ghost use Rattle.std.specs.Prelude.{◌≡◌, ◌+◌, ◌*◌, ◌-◌, ◌%◌, ◌<◌, length, get_or};
ghost use Rattle.residue.specs.Field.{generator, addq, subq, mulq, powq};
ghost use Rattle.residue.specs.Residues.{Residues};
ghost use Rattle.algebra.specs.Transform.{slot_sum, reverse};
ghost use Rattle.slots.specs.Engines.{size, root};

use crate::engine::Engine;
use crate::transform::advance;
use residue::Residue;

// The exponent of the inverse.
fn opposite(at: usize) -> usize
    requires { at < 3456 }
    ensures { result ≡ (3456 - at) % 3456 }
{
    if at == 0 { 0 } else { 3456 - at }
}

// A coefficient from its sum and its partner's: scale (2 sum - partner).
fn settle(scale: Residue, sum: Residue, partner: Residue) -> Residue
    ensures { result.value ≡ mulq scale.value (subq (addq sum.value sum.value) partner.value) }
{
    scale.mul(sum.add(sum).sub(partner))
}

impl Engine {
    // Two slots more in a sum, at the powers `even` and `odd` of GENERATOR.
    fn plus_pair(
        &self,
        sum: Residue,
        first: Residue,
        second: Residue,
        even: usize,
        odd: usize,
    ) -> Residue
        requires { (even < 3456) × (odd < 3456) }
        ensures { result.value ≡ addq (addq sum.value (mulq first.value (powq generator even))) (mulq second.value (powq generator odd)) }
    {
        self.plus_term(self.plus_term(sum, first, even), second, odd)
    }

    // S_j: the sum over the slots of a_k y^e, where y is w^-j. The exponents e are 1 and 5, 7 and 11, and so on by six.
    fn slot_sum(&self, a: &[u16], j: usize) -> Residue
        requires { Residues (size self.now) a.now × (j < size self.now) }
        ensures { result.value ≡ slot_sum self.now.half (root self.now) a.now j }
    {
        let log = opposite(self.step * j);
        let two = advance(log, log);
        let four = advance(two, two);
        let six = advance(four, two);
        let mut sum = Residue::ZERO;
        let mut even = log;
        let mut odd = advance(four, log);
        for pair in a.chunks_exact(2) {
            let first = Residue { value: pair[0] };
            let second = Residue { value: pair[1] };
            sum = self.plus_pair(sum, first, second, even, odd);
            even = advance(even, six);
            odd = advance(odd, six);
        }
        sum
    }

    // The element whose image is a. Places j and h + j are each other's partners, so one turn makes both, by their index.
    pub fn reverse(&self, a: &[u16], out: &mut [u16])
        requires { Residues (size self.now) a.now × (length out.old ≡ size self.now) }
        ensures { out.new ≡ reverse self.now.half (root self.now) a.now }
    {
        let half = self.half;
        let scale = Residue {
            value: (3 * half) as u16,
        }
        .inv();
        for j in 0..half {
            let low = self.slot_sum(a, j);
            let high = self.slot_sum(a, half + j);
            out[j] = settle(scale, low, high).value;
            out[half + j] = settle(scale, high, low).value;
        }
    }
}
