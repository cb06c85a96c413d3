// The part of a private key that is the packed image of 1/h.
ghost use Rattle.calls_halves.specs.Halves.{HHalf};

use crate::halves::halves;

pub fn h_half(set: usize, key: &[u8]) -> &[u8]
    ensures { HHalf set key.now key.entry.ref_ptr result.now result.ref_ptr }
{
    halves(set, key).1
}
