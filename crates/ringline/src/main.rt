// ringline reads standard input and prints what `line` makes of it.
#![tactic(auto)]

// One byte more than an input may have, so that a longer one is told apart. `main` says the number again, so that another one is refused.
const INPUT_ROOM: usize = line::LONGEST + 1;

// The kit's io reads and writes, and not std's, whose reader gives an `Err` where a read fails: what was read before would no longer be the input.
fn main() {
    let mut input = [0; INPUT_ROOM];
    prove!(input.len() == 32769);
    let mut output = [0; line::OUTPUT_ROOM];
    let read = io::read_full(0, &mut input);
    let printed = line::line(&input[..read], &mut output);
    io::write_all(1, &output[..printed]);
}
