// Products, images and sampled polynomials.
use answers::Parameters;
use bench_rooms::room::{
    BYTES, Input, NUMBERS, Unwritten, agreeing, kept, part, part_mut, ramp, unpack, zeros_but,
};
use bench_rooms::show::{Answered, Terms};
use calls_transforms::reverse::reverse;
use calls_transforms::transform::transform;
use std::fmt;

// The image of x: its first five slots and the last.
pub fn image_of_x(out: &mut impl fmt::Write, set: usize, last: usize) -> fmt::Result {
    let x = zeros_but(1, 1);
    let mut image = [u16::FILL; NUMBERS];
    let answer = transform(set, part(&x, set), part_mut(&mut image, set));
    writeln!(out, "transform x: {}", Answered(answer))?;
    let first = Terms {
        list: part(&image, 5),
        from: 0,
    };
    writeln!(out, "{first}")?;
    let rest = Terms {
        list: part(&image, set),
        from: last,
    };
    writeln!(out, "{rest}")
}

// The list 0, 1, .. to its image and back: how many numbers from the start on are as they were.
pub fn back(out: &mut impl fmt::Write, set: usize) -> fmt::Result {
    let ramp = ramp();
    let mut image = [u16::FILL; NUMBERS];
    let mut back = [u16::FILL; NUMBERS];
    let there = transform(set, part(&ramp, set), part_mut(&mut image, set));
    writeln!(out, "transform: {}", Answered(there))?;
    let again = reverse(set, part(&image, set), part_mut(&mut back, set));
    writeln!(out, "reverse: {}", Answered(again))?;
    writeln!(out, "{}", agreeing(part(&ramp, set), part(&back, set)))
}

// The product of two lists that are zero but for the number at a place: that it is kept, or its terms.
pub fn product(
    out: &mut impl fmt::Write,
    set: usize,
    first: (usize, u16),
    second: (usize, u16),
) -> fmt::Result {
    let a = zeros_but(first.0, first.1);
    let b = zeros_but(second.0, second.1);
    let mut written = [u16::FILL; NUMBERS];
    let answer = calls_product::product(
        set,
        part(&a, set),
        part(&b, set),
        part_mut(&mut written, set),
    );
    let answered = Answered(answer);
    if kept(&written) {
        return writeln!(out, "product: {answered} kept");
    }
    writeln!(out, "product: {answered}")?;
    let terms = Terms {
        list: part(&written, set),
        from: 0,
    };
    writeln!(out, "{terms}")
}

// The r that an H block with one byte gives, as the reverse of its image.
pub fn sampled(out: &mut impl fmt::Write, s: Parameters, at: usize, byte: u8) -> fmt::Result {
    let hblock = Input::ZerosBut(&[(at, byte)]).room();
    let mut packed = [u8::FILL; BYTES];
    let mut image = [u16::FILL; NUMBERS];
    let mut r = [u16::FILL; NUMBERS];
    let answer = calls_r_image::r_image(
        s.n,
        part(&hblock, s.hblock),
        part_mut(&mut packed, s.packed),
    );
    writeln!(out, "r-image: {}", Answered(answer))?;
    unpack(&packed, &mut image);
    let answer = reverse(s.n, part(&image, s.n), part_mut(&mut r, s.n));
    writeln!(out, "r: {}", Answered(answer))?;
    let terms = Terms {
        list: part(&r, s.n),
        from: 0,
    };
    writeln!(out, "{terms}")
}
