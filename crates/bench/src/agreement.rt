// Key making, sealing and opening, with the pair of the bench values.
use answers::{Answer, Parameters};
use bench_rooms::room::{self, BYTES, Input, Unwritten, kept, part, part_mut};
use bench_rooms::show::{Answered, Outcome, Periods, Places};
use calls_halves::f_half::f_half;
use calls_halves::h_half::h_half;
use std::fmt;

// The pair of a seed block that is zero but for the byte where its second half begins: with 1 the bench pair.
fn pair(s: Parameters, byte: u8, public: &mut [u8], private: &mut [u8]) -> Answer {
    let seed = Input::ZerosBut(&[(s.seed / 2, byte)]).room();
    calls_make::make(
        s.n,
        part(&seed, s.seed),
        part_mut(public, s.packed),
        part_mut(private, s.private),
    )
}

// The seed block of zeros, and the bench pair.
pub fn make(out: &mut impl fmt::Write, s: Parameters) -> fmt::Result {
    let mut public = [u8::FILL; BYTES];
    let mut private = [u8::FILL; BYTES];
    let answer = pair(s, 0, &mut public, &mut private);
    let outcome = Outcome {
        answer,
        kept: kept(&public) && kept(&private),
    };
    writeln!(out, "make zeros: {outcome}")?;
    let answer = pair(s, 1, &mut public, &mut private);
    writeln!(out, "make byte {}: {}", s.seed / 2, Answered(answer))?;
    writeln!(out, "public: {}", triples(part(&public, s.packed)))?;
    halves(out, "private", s.n, part(&private, s.private))
}

fn triples(bytes: &[u8]) -> Periods {
    Periods { bytes, period: 3 }
}

// The halves of a private key.
fn halves(out: &mut impl fmt::Write, name: &str, set: usize, key: &[u8]) -> fmt::Result {
    writeln!(
        out,
        "{name}: {}, {}",
        triples(f_half(set, key)),
        triples(h_half(set, key))
    )
}

// The halves of the first bytes of a key of FF bytes.
pub fn full_halves(out: &mut impl fmt::Write, set: usize, length: usize) -> fmt::Result {
    halves(out, "halves", set, part(&[0xFF; BYTES], length))
}

// What is sealed with the bench pair, and opened: the ciphertext that comes of it, or another one.
#[derive(Clone, Copy)]
pub struct Exchange<'a> {
    pub message: Input<'a>,
    pub hblock: Input<'a>,
    pub gblock: Input<'a>,
    pub cipher: Option<Input<'a>>,
}

// All inputs are zeros, and the ciphertext is the sealed one.
pub const PLAIN: Exchange<'static> = Exchange {
    message: room::ZEROS,
    hblock: room::ZEROS,
    gblock: room::ZEROS,
    cipher: None,
};

impl Exchange<'_> {
    pub fn run(self, out: &mut impl fmt::Write, s: Parameters) -> fmt::Result {
        let mut public = [u8::FILL; BYTES];
        let mut private = [u8::FILL; BYTES];
        let answer = pair(s, 1, &mut public, &mut private);
        writeln!(out, "make: {}", Answered(answer))?;
        let cipher = match self.cipher {
            Some(cipher) => cipher.room(),
            None => self.seal(out, s, &public)?,
        };
        self.open(out, s, &private, &cipher)
    }

    // Seals, and prints the ciphertext and the key.
    fn seal(
        self,
        out: &mut impl fmt::Write,
        s: Parameters,
        public: &[u8],
    ) -> Result<[u8; BYTES], fmt::Error> {
        let message = self.message.room();
        let hblock = self.hblock.room();
        let gblock = self.gblock.room();
        let mut cipher = [u8::FILL; BYTES];
        let mut key = [u8::FILL; BYTES];
        let answer = calls_seal::seal(
            s.n,
            part(public, s.packed),
            part(&message, s.message),
            part(&hblock, s.hblock),
            part(&gblock, s.gblock),
            part_mut(&mut cipher, s.packed),
            part_mut(&mut key, s.key),
        );
        writeln!(out, "seal: {}", Answered(answer))?;
        writeln!(out, "cipher: {}", triples(part(&cipher, s.packed)))?;
        writeln!(out, "key: {}", Places(part(&key, s.key)))?;
        Ok(cipher)
    }

    // The three stages: the marks and the packed image of r, the message, and the key.
    fn open(
        self,
        out: &mut impl fmt::Write,
        s: Parameters,
        private: &[u8],
        cipher: &[u8],
    ) -> fmt::Result {
        let mut marks = [u8::FILL; BYTES];
        let mut image = [u8::FILL; BYTES];
        let answer = calls_open_1::open_1(
            s.n,
            part(private, s.private),
            part(cipher, s.packed),
            part_mut(&mut marks, s.n),
            part_mut(&mut image, s.packed),
        );
        writeln!(out, "open-1: {}", Answered(answer))?;
        writeln!(out, "marks: {}", Places(part(&marks, s.n)))?;
        writeln!(out, "image: {}", triples(part(&image, s.packed)))?;
        self.open_message(out, s, &marks)?;
        self.open_key(out, s, &image)
    }

    fn open_message(self, out: &mut impl fmt::Write, s: Parameters, marks: &[u8]) -> fmt::Result {
        let gblock = self.gblock.room();
        let mut message = [u8::FILL; BYTES];
        let answer = calls_open_2::open_2(
            s.n,
            part(marks, s.n),
            part(&gblock, s.gblock),
            part_mut(&mut message, s.message),
        );
        writeln!(out, "open-2: {}", Answered(answer))?;
        writeln!(out, "message: {}", Places(part(&message, s.message)))
    }

    fn open_key(self, out: &mut impl fmt::Write, s: Parameters, image: &[u8]) -> fmt::Result {
        let hblock = self.hblock.room();
        let mut key = [u8::FILL; BYTES];
        let answer = calls_open_3::open_3(
            s.n,
            part(image, s.packed),
            part(&hblock, s.hblock),
            part_mut(&mut key, s.key),
        );
        writeln!(out, "open-3: {}", Answered(answer))?;
        writeln!(out, "key: {}", Places(part(&key, s.key)))
    }
}
