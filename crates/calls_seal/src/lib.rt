// A message, sealed with a public key.
#![tactic(auto)]

ghost use Rattle.std.specs.Prelude.{[], ◌∷◌, ◌≡◌, ◌+◌, ◌*◌, ◌%◌, length};
ghost use Rattle.residue.specs.Field.{generator, powq};
ghost use Rattle.packing.specs.Packing.{groups};
ghost use Rattle.slots.specs.Engines.{root};
ghost use Rattle.answers.specs.Replies.{reply, leaves, Outcome};
ghost use Rattle.answers.specs.Tests.{in_range};
ghost use Rattle.stages.specs.Sealing.{key_bytes, ciphertext};
ghost use Rattle.calls_seal.specs.Seal.{Seal};

use answers::{Answer, Refusal};
use slots::Engine;

// With buffers of the right lengths. Nothing is written before all groups of the public key are known to be residues.
fn seal_in(
    engine: &Engine,
    public: &[u8],
    message: &[u8],
    hblock: &[u8],
    gblock: &[u8],
    cipher: &mut [u8],
    key: &mut [u8],
) -> Answer
    requires blocks { (length message.now % 4 ≡ 0) × (engine.now.half ≡ 4 * length message.now) × (length hblock.now ≡ 32 + length gblock.now) × (length gblock.now ≡ 2 * length message.now) }
    requires buffers { (length public.now ≡ 3 * engine.now.half) × (length cipher.old ≡ 3 * engine.now.half) × (length key.old ≡ 32) }
    ensures { Outcome (in_range (groups public.now ∷ []) (reply 0 0)) result (λ R. (cipher.new ≡ leaves R (ciphertext engine.now.half (root engine.now) public.now message.now hblock.now gblock.now) cipher.old) × (key.new ≡ leaves R (key_bytes hblock.now) key.old)) }
{
    let n = engine.half + engine.half;
    let mut first = rooms::numbers();
    let mut second = rooms::numbers();
    let h = &mut first[..n];
    let c = &mut second[..n];
    if let Some(at) = packing::unpack(public, h) {
        return Err(Refusal::TooLarge(at));
    }
    stages_seal::sealed_image(engine, h, message, hblock, gblock, c);
    packing::pack(c, cipher);
    stages_seal::copy_key(hblock, key);
    Ok(())
}

// With buffers of the right lengths, too. Never inlined: a function clears the engine's table on entry, and a refusal shall not pay for that.
#[inline(never)]
fn seal_known(
    half: usize,
    step: usize,
    public: &[u8],
    message: &[u8],
    hblock: &[u8],
    gblock: &[u8],
    cipher: &mut [u8],
    key: &mut [u8],
) -> Answer
    requires turns { step * (6 * half) ≡ 3456 }
    requires blocks { (length message.now % 4 ≡ 0) × (half ≡ 4 * length message.now) × (length hblock.now ≡ 32 + length gblock.now) × (length gblock.now ≡ 2 * length message.now) }
    requires buffers { (length public.now ≡ 3 * half) × (length cipher.old ≡ 3 * half) × (length key.old ≡ 32) }
    ensures { Outcome (in_range (groups public.now ∷ []) (reply 0 0)) result (λ R. (cipher.new ≡ leaves R (ciphertext half (powq generator step) public.now message.now hblock.now gblock.now) cipher.old) × (key.new ≡ leaves R (key_bytes hblock.now) key.old)) }
{
    seal_in(
        &Engine::new(half, step),
        public,
        message,
        hblock,
        gblock,
        cipher,
        key,
    )
}

pub fn seal(
    set: usize,
    public: &[u8],
    message: &[u8],
    hblock: &[u8],
    gblock: &[u8],
    cipher: &mut [u8],
    key: &mut [u8],
) -> Answer
    ensures { Seal set public.now message.now hblock.now gblock.now cipher.old key.old result cipher.new key.new }
{
    let s = answers::set_of(set).ok_or(Refusal::UnknownSet)?;
    if !(public.len() == s.packed
        && message.len() == s.message
        && hblock.len() == s.hblock
        && gblock.len() == s.gblock
        && cipher.len() == s.packed
        && key.len() == s.key)
    {
        return Err(Refusal::WrongLength);
    }
    seal_known(s.half, s.step, public, message, hblock, gblock, cipher, key)
}
