// A seed block to a pair of keys.
#![tactic(auto)]

ghost use Rattle.std.specs.Prelude.{[], ◌∷◌, ◌≡◌, ◌+◌, ◌*◌, ◌%◌, length};
ghost use Rattle.algebra.specs.SlotBySlot.{is_zero};
ghost use Rattle.slots.specs.Engines.{root};
ghost use Rattle.answers.specs.Replies.{reply, leaves, Outcome};
ghost use Rattle.answers.specs.Tests.{at_first};
ghost use Rattle.stages.specs.Making.{small_f, small_g, f_image, g_image, public_key, private_key};
ghost use Rattle.calls_make.specs.Make.{Make};

use answers::{Answer, Refusal};
use slots::Engine;

// With buffers of the right lengths. The keys are written when no slot is zero, and not before.
fn make_in(engine: &Engine, seed: &[u8], public: &mut [u8], private: &mut [u8]) -> Answer
    requires seed_fits { (engine.now.half ≡ length seed.now) × (engine.now.half % 16 ≡ 0) }
    requires keys_fit { (length public.old ≡ 3 * engine.now.half) × (length private.old ≡ 3 * engine.now.half + 3 * engine.now.half) }
    ensures { Outcome (at_first 4 is_zero (f_image engine.now.half (root engine.now) (small_f seed.now) ∷ g_image engine.now.half (root engine.now) (small_g seed.now) ∷ []) (reply 0 0)) result (λ R. (public.new ≡ leaves R (public_key engine.now.half (root engine.now) seed.now) public.old) × (private.new ≡ leaves R (private_key engine.now.half (root engine.now) seed.now) private.old)) }
{
    let n = engine.half + engine.half;
    let mut first = rooms::numbers();
    let mut second = rooms::numbers();
    let f = &mut first[..n];
    let g = &mut second[..n];
    stages_make::pair_images(engine, seed, f, g);
    if let Some(at) = answers::through(n, slotwise::first_zero(f), slotwise::first_zero(g)) {
        return Err(Refusal::ZeroSlot(at));
    }
    stages_make::write_keys(f, g, public, private);
    Ok(())
}

pub fn make(set: usize, seed: &[u8], public: &mut [u8], private: &mut [u8]) -> Answer
    ensures { Make set seed.now public.old private.old result public.new private.new }
{
    let s = answers::set_of(set).ok_or(Refusal::UnknownSet)?;
    if !(seed.len() == s.seed && public.len() == s.packed && private.len() == s.private) {
        return Err(Refusal::WrongLength);
    }
    make_in(&Engine::new(s.half, s.step), seed, public, private)
}
