// Images of small polynomials.
ghost use Rattle.std.specs.Prelude.{◌≡◌, ◌*◌, ◌%◌, length};
ghost use Rattle.small.specs.Sampling.{sampled};
ghost use Rattle.encoding.specs.Encoding.{encoded};
ghost use Rattle.slots.specs.Engines.{size, root};
ghost use Rattle.stages.specs.Fits.{SampleFits};
ghost use Rattle.stages.specs.Images.{image_of};

use slots::Engine;

// The image of what n/4 bytes sample.
pub fn sampled_image(engine: &Engine, block: &[u8], out: &mut [u16])
    requires { SampleFits engine.now block.now out.old }
    ensures { out.new ≡ image_of engine.now.half (root engine.now) (sampled block.now) }
{
    let n = out.len();
    let mut bits = rooms::bits();
    let mut numbers = rooms::numbers();
    let p = &mut numbers[..n];
    small::sample(block, &mut bits[..n + n], p);
    engine.transform(p, out);
}

// The image of what a message is encoded to.
pub fn encoded_image(engine: &Engine, message: &[u8], block: &[u8], out: &mut [u16])
    requires { (length message.now % 4 ≡ 0) × (engine.now.half ≡ 4 * length message.now) × (length block.now ≡ 2 * length message.now) × (length out.old ≡ size engine.now) }
    ensures { out.new ≡ image_of engine.now.half (root engine.now) (encoded message.now block.now) }
{
    let n = out.len();
    let mut bits = rooms::bits();
    let mut halves = rooms::bits();
    let mut numbers = rooms::numbers();
    let p = &mut numbers[..n];
    encoding::encode(message, block, &mut bits[..n], &mut halves[..n + n], p);
    engine.transform(p, out);
}
