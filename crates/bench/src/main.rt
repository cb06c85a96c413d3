// bench runs the public calls and prints what they answered and wrote. It reads nothing.
#![tactic(auto)]

mod agreement;
mod cases;
mod values;

use bench_rooms::show::Output;
use std::fmt;

// The bench values of both sets, and the other cases.
fn run(out: &mut impl fmt::Write) -> fmt::Result {
    let (Some(small), Some(large)) = (answers::set_of(576), answers::set_of(1152)) else {
        return Ok(());
    };
    cases::bench_values(out, small)?;
    cases::bench_values(out, large)?;
    cases::agreements(out, small, large)?;
    cases::halves(out)?;
    cases::polynomials(out)?;
    cases::samples(out, small, large)?;
    cases::large_numbers(out)
}

fn main() {
    // `Output` gives no error.
    let _ = run(&mut Output);
}
