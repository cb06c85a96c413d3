// The part of a private key that is the packed image of f.
ghost use Rattle.calls_halves.specs.Halves.{FHalf};

use crate::halves::halves;

pub fn f_half(set: usize, key: &[u8]) -> &[u8]
    ensures { FHalf set key.now key.entry.ref_ptr result.now result.ref_ptr }
{
    halves(set, key).0
}
