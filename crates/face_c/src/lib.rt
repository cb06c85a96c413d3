// The exports of the archive: each calls the function of its name in `face`, which is a library, and states its clauses again.
#![tactic(auto)]

ghost use Rattle.calls_product.specs.Product.{Product};
ghost use Rattle.calls_transforms.specs.Transform.{Transform};
ghost use Rattle.calls_transforms.specs.Reverse.{Reverse};
ghost use Rattle.calls_make.specs.Make.{Make};
ghost use Rattle.calls_halves.specs.Halves.{FHalf, HHalf};
ghost use Rattle.calls_r_image.specs.RImage.{RImage};
ghost use Rattle.calls_seal.specs.Seal.{Seal};
ghost use Rattle.calls_open_1.specs.OpenOne.{OpenOne};
ghost use Rattle.calls_open_2.specs.OpenTwo.{OpenTwo};
ghost use Rattle.calls_open_3.specs.OpenThree.{OpenThree};
ghost use Rattle.face.specs.Exported.{Exported, PartOf};

use face::{Part, PlainAnswer};

#[unsafe(no_mangle)]
pub extern "C" fn rl_product(set: usize, a: &[u16], b: &[u16], out: &mut [u16]) -> PlainAnswer
    ensures { Exported (λ answer. Product set a.now b.now out.old answer out.new) result.number result.place }
{
    face::rl_product(set, a, b, out)
}

#[unsafe(no_mangle)]
pub extern "C" fn rl_transform(set: usize, a: &[u16], out: &mut [u16]) -> PlainAnswer
    ensures { Exported (λ answer. Transform set a.now out.old answer out.new) result.number result.place }
{
    face::rl_transform(set, a, out)
}

#[unsafe(no_mangle)]
pub extern "C" fn rl_reverse(set: usize, a: &[u16], out: &mut [u16]) -> PlainAnswer
    ensures { Exported (λ answer. Reverse set a.now out.old answer out.new) result.number result.place }
{
    face::rl_reverse(set, a, out)
}

#[unsafe(no_mangle)]
pub extern "C" fn rl_make(
    set: usize,
    seed: &[u8],
    public: &mut [u8],
    private: &mut [u8],
) -> PlainAnswer
    ensures { Exported (λ answer. Make set seed.now public.old private.old answer public.new private.new) result.number result.place }
{
    face::rl_make(set, seed, public, private)
}

#[unsafe(no_mangle)]
pub extern "C" fn rl_r_image(set: usize, hblock: &[u8], image: &mut [u8]) -> PlainAnswer
    ensures { Exported (λ answer. RImage set hblock.now image.old answer image.new) result.number result.place }
{
    face::rl_r_image(set, hblock, image)
}

#[unsafe(no_mangle)]
pub extern "C" fn rl_seal(
    set: usize,
    public: &[u8],
    message: &[u8],
    hblock: &[u8],
    gblock: &[u8],
    cipher: &mut [u8],
    key: &mut [u8],
) -> PlainAnswer
    ensures { Exported (λ answer. Seal set public.now message.now hblock.now gblock.now cipher.old key.old answer cipher.new key.new) result.number result.place }
{
    face::rl_seal(set, public, message, hblock, gblock, cipher, key)
}

#[unsafe(no_mangle)]
pub extern "C" fn rl_open_1(
    set: usize,
    private: &[u8],
    cipher: &[u8],
    marks: &mut [u8],
    image: &mut [u8],
) -> PlainAnswer
    ensures { Exported (λ answer. OpenOne set private.now cipher.now marks.old image.old answer marks.new image.new) result.number result.place }
{
    face::rl_open_1(set, private, cipher, marks, image)
}

#[unsafe(no_mangle)]
pub extern "C" fn rl_open_2(
    set: usize,
    marks: &[u8],
    gblock: &[u8],
    message: &mut [u8],
) -> PlainAnswer
    ensures { Exported (λ answer. OpenTwo set marks.now gblock.now message.old answer message.new) result.number result.place }
{
    face::rl_open_2(set, marks, gblock, message)
}

#[unsafe(no_mangle)]
pub extern "C" fn rl_open_3(set: usize, image: &[u8], hblock: &[u8], key: &mut [u8]) -> PlainAnswer
    ensures { Exported (λ answer. OpenThree set image.now hblock.now key.old answer key.new) result.number result.place }
{
    face::rl_open_3(set, image, hblock, key)
}

#[unsafe(no_mangle)]
pub extern "C" fn rl_f_half(set: usize, key: &[u8]) -> Part
    ensures { PartOf key.now key.entry.ref_ptr (FHalf set key.now key.entry.ref_ptr) result.start result.length }
{
    face::rl_f_half(set, key)
}

#[unsafe(no_mangle)]
pub extern "C" fn rl_h_half(set: usize, key: &[u8]) -> Part
    ensures { PartOf key.now key.entry.ref_ptr (HHalf set key.now key.entry.ref_ptr) result.start result.length }
{
    face::rl_h_half(set, key)
}
