// A list of n numbers to its image.
ghost use Rattle.calls_transforms.specs.Transform.{Transform};

use crate::tests::test_list;
use answers::Answer;
use slots::Engine;

pub fn transform(set: usize, a: &[u16], out: &mut [u16]) -> Answer
    ensures { Transform set a.now out.old result out.new }
{
    let s = test_list(set, a, out.len())?;
    let engine = Engine::new(s.half, s.step);
    engine.transform(a, out);
    Ok(())
}
