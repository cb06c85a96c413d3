// What is tried.
use crate::call::{CALLS, Call, OTHER_OUTPUT, OUTPUT};
use crate::trial::{Off, Trial};
use bench_rooms::room::Input::{Filled, ZerosBut};
use bench_rooms::room::ZEROS;
use std::fmt;

// All calls with the right lengths, and then with each of their buffers one off.
pub fn lengths(out: &mut impl fmt::Write) -> fmt::Result {
    for n in [576, 1152] {
        for call in CALLS {
            let right = Trial::new(call, usize::from(n), n);
            right.run(out)?;
            right.run_one_off(out)?;
        }
    }
    Ok(())
}

// Sets that are none: two are 576 in their low bits.
pub fn sets(out: &mut impl fmt::Write) -> fmt::Result {
    for set in [66112, 4294967872, 0, 575, 768, 864] {
        for call in CALLS {
            Trial::new(call, set, 576).run(out)?;
        }
    }
    Ok(())
}

// The first group above 3456 through all inputs, and a zero slot of g, of f and g, and of f alone.
pub fn groups(out: &mut impl fmt::Write) -> fmt::Result {
    let open = Trial::small(Call::OpenOne);
    open.run_on(out, ZerosBut(&[(1727, 255)]), Filled(255))?;
    open.run_on(out, ZEROS, ZerosBut(&[(863, 255)]))?;
    let open = Trial::large(Call::OpenOne);
    open.run_on(out, ZerosBut(&[(3455, 255)]), Filled(255))?;
    open.run_on(out, ZEROS, ZerosBut(&[(1727, 255)]))?;
    Trial::small(Call::Seal).run_on(out, ZerosBut(&[(11, 255)]), ZEROS)?;
    Trial::large(Call::Seal).run_on(out, ZerosBut(&[(1727, 255)]), ZEROS)?;
    let make = Trial::small(Call::Make);
    make.run_on(out, ZerosBut(&[(144, 13), (146, 1)]), ZEROS)?;
    make.run_on(out, ZerosBut(&[(144, 13), (146, 1), (1, 31)]), ZEROS)?;
    make.run_on(out, ZerosBut(&[(144, 1), (1, 31)]), ZEROS)?;
    let make = Trial::large(Call::Make);
    make.run_on(out, ZerosBut(&[(288, 35)]), ZEROS)?;
    make.run_on(out, ZerosBut(&[(288, 35), (0, 123)]), ZEROS)?;
    make.run_on(out, ZerosBut(&[(288, 1), (0, 123)]), ZEROS)
}

// Marks above 2, an H block with one bit of its last byte turned, and two refusals that apply at once: the smaller number is answered.
pub fn others(out: &mut impl fmt::Write) -> fmt::Result {
    let small = Trial::small(Call::OpenTwo);
    small.run_on(out, ZerosBut(&[(5, 3), (9, 255)]), ZEROS)?;
    let large = Trial::large(Call::OpenTwo);
    large.run_on(out, ZerosBut(&[(1151, 3), (9, 2)]), ZEROS)?;
    let small = Trial::small(Call::OpenThree);
    let large = Trial::large(Call::OpenThree);
    small.run_on(out, ZEROS, ZerosBut(&[(175, 128)]))?;
    large.run_on(out, ZEROS, ZerosBut(&[(319, 1)]))?;
    two_refusals(out)?;
    small.run_on(out, ZerosBut(&[(863, 255)]), ZerosBut(&[(175, 128)]))?;
    large.run_on(out, ZerosBut(&[(1727, 255)]), ZerosBut(&[(319, 1)]))
}

// A length, and what would be refused besides.
fn two_refusals(out: &mut impl fmt::Write) -> fmt::Result {
    Trial::new(Call::Make, 768, 0).run_on(out, ZEROS, ZEROS)?;
    let make = Trial::small(Call::Make).but(OUTPUT, Off::Above);
    make.run_on(out, ZEROS, ZEROS)?;
    let seal = Trial::small(Call::Seal).but(OTHER_OUTPUT, Off::Above);
    seal.run_on(out, ZerosBut(&[(11, 255)]), ZEROS)?;
    let open = Trial::large(Call::OpenOne).but(OTHER_OUTPUT, Off::Above);
    open.run_on(out, ZerosBut(&[(3455, 255)]), Filled(255))?;
    let open = Trial::small(Call::OpenThree).but(OUTPUT, Off::Above);
    open.run_on(out, ZerosBut(&[(863, 255)]), ZerosBut(&[(175, 128)]))
}
