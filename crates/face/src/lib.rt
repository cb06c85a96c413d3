// The public calls as C and Rust call them: nothing but wrappers. A buffer comes as a pointer and a length, and the answer goes as its
// number and its place. `face_c` exports them.
#![tactic(auto)]

ghost use Rattle.std.specs.Prelude.{◌≡◌};
ghost use Rattle.answers.specs.Answers.{number_of, place_of};
ghost use Rattle.calls_product.specs.Product.{Product};
ghost use Rattle.calls_transforms.specs.Transform.{Transform};
ghost use Rattle.calls_transforms.specs.Reverse.{Reverse};
ghost use Rattle.calls_make.specs.Make.{Make};
ghost use Rattle.calls_halves.specs.Halves.{FHalf, HHalf};
ghost use Rattle.calls_r_image.specs.RImage.{RImage};
ghost use Rattle.calls_seal.specs.Seal.{Seal};
ghost use Rattle.calls_open_1.specs.OpenOne.{OpenOne};
ghost use Rattle.calls_open_2.specs.OpenTwo.{OpenTwo};
ghost use Rattle.calls_open_3.specs.OpenThree.{OpenThree};
ghost use Rattle.face.specs.Exported.{Exported, PartOf};

use answers::Answer;

// An exported function can't return an enum.
#[repr(C)]
#[derive(Clone, Copy)]
pub struct PlainAnswer {
    pub number: usize,
    pub place: usize,
}

// An exported function can't return a reference either: where a part of a lent buffer begins, and how long it is.
#[repr(C)]
#[derive(Clone, Copy)]
pub struct Part {
    pub start: usize,
    pub length: usize,
}

impl From<Answer> for PlainAnswer {
    fn from(answer: Answer) -> PlainAnswer
        ensures { (result.number ≡ number_of answer) × (result.place ≡ place_of answer) }
    {
        PlainAnswer {
            number: answers::number(answer),
            place: answers::place(answer),
        }
    }
}

pub fn rl_product(set: usize, a: &[u16], b: &[u16], out: &mut [u16]) -> PlainAnswer
    ensures { Exported (λ answer. Product set a.now b.now out.old answer out.new) result.number result.place }
{
    PlainAnswer::from(calls_product::product(set, a, b, out))
}

pub fn rl_transform(set: usize, a: &[u16], out: &mut [u16]) -> PlainAnswer
    ensures { Exported (λ answer. Transform set a.now out.old answer out.new) result.number result.place }
{
    PlainAnswer::from(calls_transforms::transform::transform(set, a, out))
}

pub fn rl_reverse(set: usize, a: &[u16], out: &mut [u16]) -> PlainAnswer
    ensures { Exported (λ answer. Reverse set a.now out.old answer out.new) result.number result.place }
{
    PlainAnswer::from(calls_transforms::reverse::reverse(set, a, out))
}

pub fn rl_make(set: usize, seed: &[u8], public: &mut [u8], private: &mut [u8]) -> PlainAnswer
    ensures { Exported (λ answer. Make set seed.now public.old private.old answer public.new private.new) result.number result.place }
{
    PlainAnswer::from(calls_make::make(set, seed, public, private))
}

pub fn rl_r_image(set: usize, hblock: &[u8], image: &mut [u8]) -> PlainAnswer
    ensures { Exported (λ answer. RImage set hblock.now image.old answer image.new) result.number result.place }
{
    PlainAnswer::from(calls_r_image::r_image(set, hblock, image))
}

pub fn rl_seal(
    set: usize,
    public: &[u8],
    message: &[u8],
    hblock: &[u8],
    gblock: &[u8],
    cipher: &mut [u8],
    key: &mut [u8],
) -> PlainAnswer
    ensures { Exported (λ answer. Seal set public.now message.now hblock.now gblock.now cipher.old key.old answer cipher.new key.new) result.number result.place }
{
    PlainAnswer::from(calls_seal::seal(set, public, message, hblock, gblock, cipher, key))
}

pub fn rl_open_1(
    set: usize,
    private: &[u8],
    cipher: &[u8],
    marks: &mut [u8],
    image: &mut [u8],
) -> PlainAnswer
    ensures { Exported (λ answer. OpenOne set private.now cipher.now marks.old image.old answer marks.new image.new) result.number result.place }
{
    PlainAnswer::from(calls_open_1::open_1(set, private, cipher, marks, image))
}

pub fn rl_open_2(set: usize, marks: &[u8], gblock: &[u8], message: &mut [u8]) -> PlainAnswer
    ensures { Exported (λ answer. OpenTwo set marks.now gblock.now message.old answer message.new) result.number result.place }
{
    PlainAnswer::from(calls_open_2::open_2(set, marks, gblock, message))
}

pub fn rl_open_3(set: usize, image: &[u8], hblock: &[u8], key: &mut [u8]) -> PlainAnswer
    ensures { Exported (λ answer. OpenThree set image.now hblock.now key.old answer key.new) result.number result.place }
{
    PlainAnswer::from(calls_open_3::open_3(set, image, hblock, key))
}

pub fn rl_f_half(set: usize, key: &[u8]) -> Part
    ensures { PartOf key.now key.entry.ref_ptr (FHalf set key.now key.entry.ref_ptr) result.start result.length }
{
    let part = calls_halves::f_half::f_half(set, key);
    Part {
        start: 0,
        length: part.len(),
    }
}

// The halves are as long as each other, so this one begins at its own length.
pub fn rl_h_half(set: usize, key: &[u8]) -> Part
    ensures { PartOf key.now key.entry.ref_ptr (HHalf set key.now key.entry.ref_ptr) result.start result.length }
{
    let part = calls_halves::h_half::h_half(set, key);
    Part {
        start: part.len(),
        length: part.len(),
    }
}
