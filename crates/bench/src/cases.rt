// The inputs that are run.
use crate::agreement::{self, Exchange, PLAIN};
use crate::values;
use answers::Parameters;
use bench_rooms::room::Input::{Counting, Triples, ZerosBut};
use std::fmt;

// The bench values of document 01 that are not marked: all zero but for byte 32 of the H block, which makes r = 1.
pub fn bench_values(out: &mut impl fmt::Write, s: Parameters) -> fmt::Result {
    agreement::make(out, s)?;
    let hblock = ZerosBut(&[(32, 1)]);
    Exchange { hblock, ..PLAIN }.run(out, s)
}

// Messages with a bit in the last block, a G block with one in its second half, key bytes, and another ciphertext.
pub fn agreements(out: &mut impl fmt::Write, small: Parameters, large: Parameters) -> fmt::Result {
    message_byte(out, small, 66, 1)?;
    message_byte(out, small, 64, 2)?;
    message_byte(out, large, 130, 1)?;
    message_byte(out, large, 143, 1)?;
    gblock_byte(out, small, 72)?;
    gblock_byte(out, large, 144)?;
    let key_bytes = Exchange {
        hblock: Counting,
        ..PLAIN
    };
    key_bytes.run(out, small)?;
    key_bytes.run(out, large)?;
    // 2 in all slots, which no encoding with a zero G block and r = 1 gives
    let other_ciphertext = Exchange {
        hblock: ZerosBut(&[(32, 1)]),
        cipher: Some(Triples([2, 32, 0])),
        ..PLAIN
    };
    other_ciphertext.run(out, small)?;
    other_ciphertext.run(out, large)
}

fn message_byte(out: &mut impl fmt::Write, s: Parameters, place: usize, byte: u8) -> fmt::Result {
    let message = ZerosBut(&[(place, byte)]);
    Exchange { message, ..PLAIN }.run(out, s)
}

fn gblock_byte(out: &mut impl fmt::Write, s: Parameters, place: usize) -> fmt::Result {
    let gblock = ZerosBut(&[(place, 1)]);
    Exchange { gblock, ..PLAIN }.run(out, s)
}

// Keys of the right length, and of others.
pub fn halves(out: &mut impl fmt::Write) -> fmt::Result {
    agreement::full_halves(out, 576, 1728)?;
    agreement::full_halves(out, 576, 1727)?;
    agreement::full_halves(out, 576, 1729)?;
    agreement::full_halves(out, 1152, 3456)?;
    agreement::full_halves(out, 1152, 3455)?;
    agreement::full_halves(out, 1152, 3457)?;
    agreement::full_halves(out, 768, 2304)?;
    agreement::full_halves(out, 768, 1728)
}

// Images of x, lists that come back, products that are folded.
pub fn polynomials(out: &mut impl fmt::Write) -> fmt::Result {
    values::image_of_x(out, 576, 575)?;
    values::image_of_x(out, 1152, 1151)?;
    values::back(out, 576)?;
    values::back(out, 1152)?;
    values::product(out, 576, (575, 1), (1, 1))?;
    values::product(out, 576, (575, 1), (575, 1))?;
    values::product(out, 1152, (1151, 1), (1151, 1))
}

// Sampled bits.
pub fn samples(out: &mut impl fmt::Write, small: Parameters, large: Parameters) -> fmt::Result {
    values::sampled(out, small, 98, 1)?;
    values::sampled(out, small, 168, 2)?;
    values::sampled(out, large, 162, 1)?;
    values::sampled(out, large, 319, 1)
}

// Products with a number above 3456.
pub fn large_numbers(out: &mut impl fmt::Write) -> fmt::Result {
    values::product(out, 576, (575, 0), (0, 3457))?;
    values::product(out, 576, (575, 3457), (0, 3457))?;
    values::product(out, 1152, (1151, 3456), (0, 3457))?;
    values::product(out, 1152, (1151, 3457), (0, 3457))
}
