// A private key and a ciphertext to marks and the packed image of r.
#![tactic(auto)]

ghost use Rattle.std.specs.Prelude.{[], ◌∷◌, ◌≡◌, ◌+◌, ◌*◌, ◌/◌, ◌%◌, ◌≤◌, length, position};
ghost use mathlib.Core.List.{flatten};
ghost use Rattle.residue.specs.Large.{too_large};
ghost use Rattle.small.specs.Sampling.{first_half, second_half};
ghost use Rattle.packing.specs.Packing.{groups};
ghost use Rattle.slots.specs.Engines.{size, root};
ghost use Rattle.answers.specs.Replies.{reply, leaves, Outcome};
ghost use Rattle.answers.specs.Tests.{in_range};
ghost use Rattle.stages.specs.Opening.{opened_marks, opened_image};
ghost use Rattle.calls_open_1.specs.OpenOne.{OpenOne};

use answers::{Answer, Refusal};
use slots::Engine;

// All groups of the key's two halves and of the ciphertext. The place of the first above 3456, counted through all of them.
fn unpack_all(
    private: &[u8],
    cipher: &[u8],
    f: &mut [u16],
    inverse: &mut [u16],
    c: &mut [u16],
) -> Option<usize>
    requires outputs { (length f.old % 2 ≡ 0) × (length f.old ≤ 1152) × (length inverse.old ≡ length f.old) × (length c.old ≡ length f.old) }
    requires inputs { (length private.now ≡ 3 * (length f.old / 2) + 3 * (length f.old / 2)) × (length cipher.now ≡ 3 * (length f.old / 2)) }
    ensures place { result ≡ position too_large (flatten (groups private.now ∷ groups cipher.now ∷ [])) }
    ensures f_after { f.new ≡ groups (first_half private.now) }
    ensures inverse_after { inverse.new ≡ groups (second_half private.now) }
    ensures c_after { c.new ≡ groups cipher.now }
{
    let middle = private.len() / 2;
    let n = f.len();
    let first = packing::unpack(&private[..middle], f);
    let second = packing::unpack(&private[middle..], inverse);
    let third = packing::unpack(cipher, c);
    answers::through(n, first, answers::through(n, second, third))
}

// With buffers of the right lengths. Nothing is written before all groups are known to be residues.
fn open_1_in(
    engine: &Engine,
    private: &[u8],
    cipher: &[u8],
    marks: &mut [u8],
    image: &mut [u8],
) -> Answer
    requires inputs { (length private.now ≡ 3 * engine.now.half + 3 * engine.now.half) × (length cipher.now ≡ 3 * engine.now.half) }
    requires outputs { (length marks.old ≡ size engine.now) × (length image.old ≡ 3 * engine.now.half) }
    ensures { Outcome (in_range (groups private.now ∷ groups cipher.now ∷ []) (reply 0 0)) result (λ R. (marks.new ≡ leaves R (opened_marks engine.now.half (root engine.now) private.now cipher.now) marks.old) × (image.new ≡ leaves R (opened_image engine.now.half (root engine.now) private.now cipher.now) image.old)) }
{
    let n = engine.half + engine.half;
    let mut first = rooms::numbers();
    let mut second = rooms::numbers();
    let mut third = rooms::numbers();
    let mut fourth = rooms::numbers();
    let f = &mut first[..n];
    let inverse = &mut second[..n];
    let c = &mut third[..n];
    let r = &mut fourth[..n];
    if let Some(at) = unpack_all(private, cipher, f, inverse, c) {
        return Err(Refusal::TooLarge(at));
    }
    stages_open::open(engine, f, inverse, c, marks, r);
    packing::pack(r, image);
    Ok(())
}

pub fn open_1(
    set: usize,
    private: &[u8],
    cipher: &[u8],
    marks: &mut [u8],
    image: &mut [u8],
) -> Answer
    ensures { OpenOne set private.now cipher.now marks.old image.old result marks.new image.new }
{
    let s = answers::set_of(set).ok_or(Refusal::UnknownSet)?;
    if !(private.len() == s.private
        && cipher.len() == s.packed
        && marks.len() == s.n
        && image.len() == s.packed)
    {
        return Err(Refusal::WrongLength);
    }
    open_1_in(&Engine::new(s.half, s.step), private, cipher, marks, image)
}
