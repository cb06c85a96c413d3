// Making a pair: the images of f and g, and the two keys.
#![tactic(auto)]

ghost use Rattle.std.specs.Prelude.{◌≡◌, ◌++◌, map, ◌+◌, ◌*◌, ◌/◌, ◌%◌, ◌≤◌, length};
ghost use Rattle.residue.specs.Field.{mulq};
ghost use Rattle.residue.specs.Residues.{Residues};
ghost use Rattle.residue.specs.Signed.{residue_of};
ghost use Rattle.algebra.specs.SlotBySlot.{times, inverses};
ghost use Rattle.small.specs.Sampling.{sampled};
ghost use Rattle.packing.specs.Packing.{packed};
ghost use Rattle.slots.specs.Engines.{size, root};
ghost use Rattle.stages.specs.Fits.{SampleFits};
ghost use Rattle.stages.specs.Making.{small_f, small_g, f_image, g_image};

use residue::Residue;
use slots::Engine;

// Three times each coefficient.
fn triple(p: &mut [u16])
    requires { Residues (length p.old) p.old }
    ensures { p.new ≡ map (mulq 3) p.old }
{
    for x in p.iter_mut() {
        *x = Residue { value: 3 }.mul(Residue { value: *x }).value;
    }
}

// Three times what n/4 bytes sample.
fn sample_tripled(block: &[u8], p: &mut [u16])
    requires { (length block.now % 8 ≡ 0) × (length p.old ≡ 4 * length block.now) × (length p.old ≤ 1152) }
    ensures { p.new ≡ map (mulq 3) (map residue_of (sampled block.now)) }
{
    let n = p.len();
    let mut bits = rooms::bits();
    small::sample(block, &mut bits[..n + n], p);
    triple(p);
}

// The image of f = 3f' + 1.
fn f_image(engine: &Engine, block: &[u8], out: &mut [u16])
    requires { SampleFits engine.now block.now out.old }
    ensures { out.new ≡ f_image engine.now.half (root engine.now) (sampled block.now) }
{
    let mut numbers = rooms::numbers();
    let p = &mut numbers[..out.len()];
    sample_tripled(block, p);
    p[0] = Residue { value: p[0] }.add(Residue::ONE).value;
    engine.transform(p, out);
}

// The image of g = 3g'. A function beside that of f, since g has no constant: to add 0 would be no plainer.
fn g_image(engine: &Engine, block: &[u8], out: &mut [u16])
    requires { SampleFits engine.now block.now out.old }
    ensures { out.new ≡ g_image engine.now.half (root engine.now) (sampled block.now) }
{
    let mut numbers = rooms::numbers();
    let p = &mut numbers[..out.len()];
    sample_tripled(block, p);
    engine.transform(p, out);
}

// The images of f and g: f from the first half of the seed block and g from the second.
pub fn pair_images(engine: &Engine, seed: &[u8], f: &mut [u16], g: &mut [u16])
    requires { (length seed.now % 16 ≡ 0) × (engine.now.half ≡ length seed.now) × (length f.old ≡ size engine.now) × (length g.old ≡ size engine.now) }
    ensures f_after { f.new ≡ f_image engine.now.half (root engine.now) (small_f seed.now) }
    ensures g_after { g.new ≡ g_image engine.now.half (root engine.now) (small_g seed.now) }
{
    let middle = seed.len() / 2;
    f_image(engine, &seed[..middle], f);
    g_image(engine, &seed[middle..], g);
}

// The private key: the packed image of f, then that of 1/h.
fn write_private(f: &[u16], inverse: &[u16], private: &mut [u8])
    requires { (length f.now % 2 ≡ 0) × Residues (length f.now) f.now × Residues (length f.now) inverse.now × (length private.old ≡ 3 * (length f.now / 2) + 3 * (length f.now / 2)) }
    ensures { private.new ≡ packed f.now ++ packed inverse.now }
{
    let middle = private.len() / 2;
    packing::pack(f, &mut private[..middle]);
    packing::pack(inverse, &mut private[middle..]);
}

// Both keys, with h = g/f and 1/h slot by slot, where no slot of f and none of g is zero.
pub fn write_keys(f: &[u16], g: &[u16], public: &mut [u8], private: &mut [u8])
    requires images { (length f.now % 2 ≡ 0) × (length f.now ≤ 1152) × Residues (length f.now) f.now × Residues (length f.now) g.now }
    requires key_lengths { (length public.old ≡ 3 * (length f.now / 2)) × (length private.old ≡ 3 * (length f.now / 2) + 3 * (length f.now / 2)) }
    ensures public_after { public.new ≡ packed (times (length f.now) g.now (inverses (length f.now) f.now)) }
    ensures private_after { private.new ≡ packed f.now ++ packed (inverses (length f.now) (times (length f.now) g.now (inverses (length f.now) f.now))) }
{
    let n = f.len();
    let mut first = rooms::numbers();
    let mut second = rooms::numbers();
    let inverse = &mut first[..n];
    let h = &mut second[..n];
    slotwise::invert(f, inverse);
    slotwise::times(g, inverse, h);
    packing::pack(h, public);
    slotwise::invert(h, inverse);
    write_private(f, inverse, private);
}
