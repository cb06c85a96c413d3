// An H block to the packed image of its r, which the host hashes to a G block.
#![tactic(auto)]

ghost use Rattle.std.specs.Prelude.{◌≡◌, ◌*◌, length};
ghost use Rattle.packing.specs.Packing.{packed};
ghost use Rattle.slots.specs.Engines.{root};
ghost use Rattle.stages.specs.Fits.{HblockFits};
ghost use Rattle.stages.specs.Sealing.{r_image};
ghost use Rattle.calls_r_image.specs.RImage.{RImage};

use answers::{Answer, Refusal};
use slots::Engine;

// With buffers of the right lengths.
fn r_image_in(engine: &Engine, hblock: &[u8], image: &mut [u8])
    requires { HblockFits engine.now hblock.now × (length image.old ≡ 3 * engine.now.half) }
    ensures { image.new ≡ packed (r_image engine.now.half (root engine.now) hblock.now) }
{
    let n = engine.half + engine.half;
    let mut room = rooms::numbers();
    let r = &mut room[..n];
    stages_seal::r_image(engine, hblock, r);
    packing::pack(r, image);
}

pub fn r_image(set: usize, hblock: &[u8], image: &mut [u8]) -> Answer
    ensures { RImage set hblock.now image.old result image.new }
{
    let s = answers::set_of(set).ok_or(Refusal::UnknownSet)?;
    if !(hblock.len() == s.hblock && image.len() == s.packed) {
        return Err(Refusal::WrongLength);
    }
    r_image_in(&Engine::new(s.half, s.step), hblock, image);
    Ok(())
}
