// The two parts of a private key.
ghost use Rattle.calls_halves.specs.Halves.{FHalf, HHalf};

// Both empty where the set is unknown or the key has another length. The groups are not looked at.
pub(crate) fn halves(set: usize, key: &[u8]) -> (&[u8], &[u8])
    ensures first { FHalf set key.now key.entry.ref_ptr result.0.now result.0.ref_ptr }
    ensures second { HHalf set key.now key.entry.ref_ptr result.1.now result.1.ref_ptr }
{
    // Cut by ranges: what `split_at` promises of its parts does not say where they stand. No guard at `Some(s)`: with one, the compiled call
    // tests twice whether the set is known.
    match answers::set_of(set) {
        None => (&key[..0], &key[..0]),
        Some(s) => {
            if key.len() == s.private {
                (&key[..s.packed], &key[s.packed..])
            } else {
                (&key[..0], &key[..0])
            }
        }
    }
}
