// The steps of sealing, on slices of the right lengths: the image of r, that of h*r + m, and the key. Nothing is refused here.
#![tactic(auto)]

ghost use Rattle.std.specs.Prelude.{◌≡◌, ◌+◌, ◌*◌, ◌%◌, ◌≤◌, length};
ghost use Rattle.residue.specs.Residues.{Residues};
ghost use Rattle.encoding.specs.Encoding.{encoded};
ghost use Rattle.slots.specs.Engines.{size, root};
ghost use Rattle.stages.specs.Fits.{HblockFits};
ghost use Rattle.stages.specs.Sealing.{key_bytes, small_r, r_image, sealed_image};

use slots::Engine;
use stages::images::{encoded_image, sampled_image};

// The image of the r that an H block brings after its 32 key bytes.
pub fn r_image(engine: &Engine, hblock: &[u8], out: &mut [u16])
    requires { HblockFits engine.now hblock.now × (length out.old ≡ size engine.now) }
    ensures { out.new ≡ r_image engine.now.half (root engine.now) hblock.now }
{
    sampled_image(engine, &hblock[32..], out);
}

// The image of h*r + m, where h is given by its image.
pub fn sealed_image(
    engine: &Engine,
    h: &[u16],
    message: &[u8],
    hblock: &[u8],
    gblock: &[u8],
    out: &mut [u16],
)
    requires h_residues { Residues (size engine.now) h.now × (length out.old ≡ size engine.now) }
    requires message_len { (length message.now % 4 ≡ 0) × (engine.now.half ≡ 4 * length message.now) × (length hblock.now ≡ 32 + length gblock.now) × (length gblock.now ≡ 2 * length message.now) }
    ensures { out.new ≡ sealed_image engine.now.half (root engine.now) h.now (small_r hblock.now) (encoded message.now gblock.now) }
{
    let n = h.len();
    let mut first = rooms::numbers();
    let mut second = rooms::numbers();
    let image = &mut first[..n];
    let product = &mut second[..n];
    r_image(engine, hblock, image);
    slotwise::times(h, image, product);
    encoded_image(engine, message, gblock, image);
    slotwise::plus(product, image, out);
}

// The key bytes of an H block.
pub fn copy_key(hblock: &[u8], key: &mut [u8])
    requires { (length key.old ≡ 32) × (32 ≤ length hblock.now) }
    ensures { key.new ≡ key_bytes hblock.now }
{
    key.copy_from_slice(&hblock[..32]);
}
