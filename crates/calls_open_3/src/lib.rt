// The key of an H block, where the lent image is that of its r.
#![tactic(auto)]

ghost use Rattle.std.specs.Prelude.{cond, [], ◌∷◌, ◌≡◌, ◌*◌, length};
ghost use Rattle.lists.specs.Every.{equal};
ghost use Rattle.packing.specs.Packing.{groups};
ghost use Rattle.slots.specs.Engines.{root};
ghost use Rattle.answers.specs.Replies.{reply, leaves, Outcome};
ghost use Rattle.answers.specs.Tests.{in_range};
ghost use Rattle.stages.specs.Fits.{HblockFits};
ghost use Rattle.stages.specs.Sealing.{key_bytes, r_image};
ghost use Rattle.calls_open_3.specs.OpenThree.{OpenThree};

use answers::{Answer, Refusal};
use slots::Engine;

// With buffers of the right lengths. The images are compared in all slots, whatever the first ones hold.
fn open_3_in(engine: &Engine, image: &[u8], hblock: &[u8], key: &mut [u8]) -> Answer
    requires { HblockFits engine.now hblock.now × (length image.now ≡ 3 * engine.now.half) × (length key.old ≡ 32) }
    ensures { Outcome (in_range (groups image.now ∷ []) (cond (equal (groups image.now) (r_image engine.now.half (root engine.now) hblock.now)) (reply 0 0) (reply 6 0))) result (λ R. key.new ≡ leaves R (key_bytes hblock.now) key.old) }
{
    let n = engine.half + engine.half;
    let mut first = rooms::numbers();
    let mut second = rooms::numbers();
    let lent = &mut first[..n];
    let r = &mut second[..n];
    if let Some(at) = packing::unpack(image, lent) {
        return Err(Refusal::TooLarge(at));
    }
    stages_seal::r_image(engine, hblock, r);
    if !slotwise::same(lent, r) {
        return Err(Refusal::Differs);
    }
    stages_seal::copy_key(hblock, key);
    Ok(())
}

pub fn open_3(set: usize, image: &[u8], hblock: &[u8], key: &mut [u8]) -> Answer
    ensures { OpenThree set image.now hblock.now key.old result key.new }
{
    let s = answers::set_of(set).ok_or(Refusal::UnknownSet)?;
    if !(image.len() == s.packed && hblock.len() == s.hblock && key.len() == s.key) {
        return Err(Refusal::WrongLength);
    }
    open_3_in(&Engine::new(s.half, s.step), image, hblock, key)
}
