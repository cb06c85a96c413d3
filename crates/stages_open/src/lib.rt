// Opening's first stage: m and the image of r, from a ciphertext and the two images of a private key.
#![tactic(auto)]

ghost use Rattle.std.specs.Prelude.{◌≡◌, map, length};
ghost use Rattle.residue.specs.Residues.{Residues};
ghost use Rattle.marks.specs.Marks.{mark_of};
ghost use Rattle.slots.specs.Engines.{size, root};
ghost use Rattle.stages.specs.Opening.{opened_m, opened_r};

use slots::Engine;

// The marks of m: c times f, transformed back, centred and taken by 3.
fn open_marks(engine: &Engine, f: &[u16], c: &[u16], marks: &mut [u8])
    requires { Residues (size engine.now) f.now × Residues (size engine.now) c.now × (length marks.old ≡ size engine.now) }
    ensures { marks.new ≡ map mark_of (opened_m engine.now.half (root engine.now) f.now c.now) }
{
    let n = c.len();
    let mut first = rooms::numbers();
    let mut second = rooms::numbers();
    let image = &mut first[..n];
    let element = &mut second[..n];
    slotwise::times(c, f, image);
    engine.reverse(image, element);
    marks::mark(element, marks);
}

// The marks of m and the image of r, which is (c - m) times 1/h, slot by slot.
pub fn open(engine: &Engine, f: &[u16], inverse: &[u16], c: &[u16], marks: &mut [u8], r: &mut [u16])
    requires residues { Residues (size engine.now) f.now × Residues (size engine.now) inverse.now × Residues (size engine.now) c.now }
    requires lengths { (length marks.old ≡ size engine.now) × (length r.old ≡ size engine.now) }
    ensures marks_after { marks.new ≡ map mark_of (opened_m engine.now.half (root engine.now) f.now c.now) }
    ensures r_after { r.new ≡ opened_r engine.now.half (root engine.now) f.now inverse.now c.now }
{
    let n = c.len();
    let mut first = rooms::numbers();
    let mut second = rooms::numbers();
    let element = &mut first[..n];
    let image = &mut second[..n];
    open_marks(engine, f, c, marks);
    marks::unmark(marks, element);
    engine.transform(element, image);
    slotwise::minus(c, image, element);
    slotwise::times(element, inverse, r);
}
