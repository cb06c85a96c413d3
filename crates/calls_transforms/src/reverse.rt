// An image to the one element that has it.
ghost use Rattle.calls_transforms.specs.Reverse.{Reverse};

use crate::tests::test_list;
use answers::Answer;
use slots::Engine;

pub fn reverse(set: usize, a: &[u16], out: &mut [u16]) -> Answer
    ensures { Reverse set a.now out.old result out.new }
{
    let s = test_list(set, a, out.len())?;
    let engine = Engine::new(s.half, s.step);
    engine.reverse(a, out);
    Ok(())
}
