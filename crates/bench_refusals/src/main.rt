// bench_refusals runs each public call on buffers that are one off, and on other inputs that it refuses. It prints what was answered, and whether the outputs were kept, and reads nothing.
#![tactic(auto)]

mod call;
mod cases;
mod trial;

use bench_rooms::show::Output;
use std::fmt;

// Each buffer of each call one off, in both sets, and the other cases.
fn run(out: &mut impl fmt::Write) -> fmt::Result {
    cases::lengths(out)?;
    cases::sets(out)?;
    cases::groups(out)?;
    cases::others(out)
}

fn main() {
    // `Output` gives no error.
    let _ = run(&mut Output);
}
