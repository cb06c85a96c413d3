// Small polynomials sampled from bytes, and the bits of a block's halves. Coefficients are written as residues, -1 as 3456.
// The room for bits, `halves`, is lent, as `bench_steps` has it from C.
#![tactic(auto)]

ghost use Rattle.std.specs.Prelude.{◌++◌, map, ◌≡◌, ◌+◌, ◌*◌, ◌%◌, ◌<◌, pos, ◌-ℤ◌, length, get_or};
ghost use Rattle.lists.specs.Tab.{tab};
ghost use Rattle.lists.specs.Below.{Below};
ghost use Rattle.residue.specs.Signed.{residue_of};
ghost use Rattle.bits.specs.Listing.{listed};
ghost use Rattle.small.specs.Sampling.{first_half, second_half, sampled};

use residue::Residue;

// The bits of the two halves of a block, each half through the listing by itself.
pub fn list_halves(block: &[u8], halves: &mut [u8])
    requires { (length halves.old ≡ 8 * length block.now) × (length block.now % 8 ≡ 0) }
    ensures { halves.new ≡ listed (first_half block.now) ++ listed (second_half block.now) }
{
    let half = block.len() / 2;
    let n = halves.len() / 2;
    bits::list(&block[..half], &mut halves[..n]);
    bits::list(&block[half..], &mut halves[n..]);
}

// first - second, of two bits.
pub fn difference(first: u8, second: u8) -> Residue
    requires { (first < 2) × (second < 2) }
    ensures { result.value ≡ residue_of (pos first -ℤ pos second) }
{
    let a = Residue {
        value: u16::from(first),
    };
    let b = Residue {
        value: u16::from(second),
    };
    a.sub(b)
}

// The coefficients that the bits of two halves sample.
fn sample_bits(halves: &[u8], coefficients: &mut [u16])
    requires { (length halves.now ≡ length coefficients.old + length coefficients.old) × Below 2 halves.now }
    ensures { coefficients.new ≡ tab (length coefficients.old) (λ i. residue_of (pos (get_or halves.now i 0) -ℤ pos (get_or halves.now (length coefficients.old + i) 0))) }
{
    let n = coefficients.len();
    // The halves are read by the place: of what a `zip` of `iter_mut` writes, a proof knows no more than the length.
    for (i, coefficient) in coefficients.iter_mut().enumerate() {
        *coefficient = difference(halves[i], halves[n + i]).value;
    }
}

// Samples n coefficients from n/4 bytes. `halves` is room for 2n bits.
pub fn sample(block: &[u8], halves: &mut [u8], coefficients: &mut [u16])
    requires { (length block.now % 8 ≡ 0) × (length halves.old ≡ 8 * length block.now) × (length coefficients.old ≡ 4 * length block.now) }
    ensures { coefficients.new ≡ map residue_of (sampled block.now) }
{
    list_halves(block, halves);
    sample_bits(halves, coefficients);
}
