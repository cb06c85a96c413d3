// One call, and whether its outputs are kept.
use crate::call::Call;
use bench_rooms::room::{BYTES, Input, NUMBERS, Unwritten, ZEROS, kept, part, part_mut};
use bench_rooms::show::Outcome;
use std::fmt;

#[derive(Clone, Copy)]
pub enum Off {
    Below,
    Above,
}

// A call with a set number, the n that decides the lengths of its buffers, and the buffer that is one off.
#[derive(Clone, Copy)]
pub struct Trial {
    call: Call,
    set: usize,
    n: u16,
    off: Option<(usize, Off)>,
}

impl Trial {
    pub fn new(call: Call, set: usize, n: u16) -> Trial {
        Trial {
            call,
            set,
            n,
            off: None,
        }
    }

    pub fn small(call: Call) -> Trial {
        Trial::new(call, 576, 576)
    }

    pub fn large(call: Call) -> Trial {
        Trial::new(call, 1152, 1152)
    }

    // The same with one buffer one off.
    pub fn but(self, buffer: usize, off: Off) -> Trial {
        Trial {
            off: Some((buffer, off)),
            ..self
        }
    }

    fn lengths(self) -> [Option<usize>; 6] {
        let mut lengths = self.call.lengths(self.n);
        if let Some((buffer, off)) = self.off {
            if let Some(Some(length)) = lengths.get_mut(buffer) {
                *length = match off {
                    Off::Below => length.saturating_sub(1),
                    Off::Above => length.saturating_add(1),
                };
            }
        }
        lengths
    }

    // A call on bytes has these first two inputs, and zeros as further ones; a call on lists has ones.
    fn outcome(self, first: Input, second: Input) -> Outcome {
        let set = self.set;
        // a length that the call has not gets 0, and its arm lends no such buffer
        let [a, b, c, d, e, f] = self.lengths().map(Option::unwrap_or_default);
        let ones = [1u16; NUMBERS];
        let first = first.room();
        let second = second.room();
        let zeros = [0u8; BYTES];
        let mut list = [u16::FILL; NUMBERS];
        let mut out = [u8::FILL; BYTES];
        let mut other = [u8::FILL; BYTES];
        let answer = match self.call {
            Call::Product => calls_product::product(
                set,
                part(&ones, a),
                part(&ones, b),
                part_mut(&mut list, e),
            ),
            Call::Transform => calls_transforms::transform::transform(
                set,
                part(&ones, a),
                part_mut(&mut list, e),
            ),
            Call::Reverse => calls_transforms::reverse::reverse(
                set,
                part(&ones, a),
                part_mut(&mut list, e),
            ),
            Call::Make => calls_make::make(
                set,
                part(&first, a),
                part_mut(&mut out, e),
                part_mut(&mut other, f),
            ),
            Call::RImage => { calls_r_image::r_image(set, part(&first, a), part_mut(&mut out, e)) }
            Call::Seal => calls_seal::seal(
                set,
                part(&first, a),
                part(&second, b),
                part(&zeros, c),
                part(&zeros, d),
                part_mut(&mut out, e),
                part_mut(&mut other, f),
            ),
            Call::OpenOne => calls_open_1::open_1(
                set,
                part(&first, a),
                part(&second, b),
                part_mut(&mut out, e),
                part_mut(&mut other, f),
            ),
            Call::OpenTwo => calls_open_2::open_2(
                set,
                part(&first, a),
                part(&second, b),
                part_mut(&mut out, e),
            ),
            Call::OpenThree => calls_open_3::open_3(
                set,
                part(&first, a),
                part(&second, b),
                part_mut(&mut out, e),
            ),
        };
        Outcome {
            answer,
            kept: kept(&list) && kept(&out) && kept(&other),
        }
    }

    // The outcome on inputs that are right.
    fn usual(self) -> Outcome {
        let seed = [(usize::from(self.n / 4), 1)];
        let first = match self.call {
            Call::Make => Input::ZerosBut(&seed),
            _ => ZEROS,
        };
        self.outcome(first, ZEROS)
    }

    // Prints the call's name and the outcome.
    pub fn run_on(self, out: &mut impl fmt::Write, first: Input, second: Input) -> fmt::Result {
        writeln!(out, "{}: {}", self.call, self.outcome(first, second))
    }

    // The same on inputs that are right, with the set number.
    pub fn run(self, out: &mut impl fmt::Write) -> fmt::Result {
        writeln!(out, "{self}: {}", self.usual())
    }

    // The same with each of the call's buffers one off.
    pub fn run_one_off(self, out: &mut impl fmt::Write) -> fmt::Result {
        let lengths = self.lengths();
        let lent = lengths
            .iter()
            .enumerate()
            .filter(|(_, length)| length.is_some());
        for (number, (buffer, _)) in lent.enumerate() {
            let below = self.but(buffer, Off::Below).usual();
            writeln!(out, "{self} buffer {number} -1: {below}")?;
            let above = self.but(buffer, Off::Above).usual();
            writeln!(out, "{self} buffer {number} +1: {above}")?;
        }
        Ok(())
    }
}

impl fmt::Display for Trial {
    fn fmt<W: fmt::Write>(&self, f: &mut fmt::Formatter<W>) -> fmt::Result {
        write!(f, "{} {}", self.call, self.set)
    }
}
