// What the transforms of a set work with.
ghost use Rattle.std.specs.Prelude.{◌≡◌, ◌*◌};
ghost use Rattle.slots.specs.Ready.{Ready};

// The table of powers of 7, h = n/2, and the step with w = 7^step: the table's order is 6h steps. The table is first, where it is read by
// the shortest instruction.
#[derive(Drop)]
pub struct Engine {
    pub(crate) powers: [u16; 3456],
    pub half: usize,
    pub step: usize,
    pub ghost ready: { Ready half step powers },
}

impl Engine {
    pub fn new(half: usize, step: usize) -> Engine
        requires { step * (6 * half) ≡ 3456 }
        ensures { (result.half ≡ half) × (result.step ≡ step) }
    {
        Engine {
            half,
            step,
            powers: powers::powers(),
        }
    }
}
