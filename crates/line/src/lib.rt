// ringline as one function from the input's bytes to the printed bytes.
#![tactic(auto)]

ghost use Rattle.std.specs.Prelude.{MatchResult};
ghost use Rattle.line.specs.Read.{Multiplied, Refused};
ghost use Rattle.line.specs.Line.{Line};

use answers::Refusal;
use lines::input::{polynomial_in, set_in};
use lines::output::{put_answer, put_lines};
use text::past;

// The most bytes that an input may have.
pub const LONGEST: usize = 32768;

// Room for all that can be printed. `line` says the number again, so that another one is refused.
pub const OUTPUT_ROOM: usize = 16384;

// The input's set, and in front of the list the product of its two polynomials. A set is named by how long they are.
fn product_in(input: &[u8], list: &mut [u16; 1152]) -> Result<usize, Refusal>
    ensures { MatchResult result (λ set. Multiplied input.now list.new set) (λ refusal. Refused input.now refusal) }
{
    if input.len() > LONGEST {
        return Err(Refusal::Malformed(0));
    }
    let set = set_in(input).ok_or(Refusal::Malformed(1))?;
    let s = answers::set_of(set).ok_or(Refusal::UnknownSet)?;
    let mut first = rooms::numbers();
    let mut second = rooms::numbers();
    let a = &mut first[..s.n];
    let b = &mut second[..s.n];
    let second_line = past(input, b'\n');
    if !polynomial_in(b"a=", second_line, a) {
        return Err(Refusal::Malformed(2));
    }
    let third_line = past(second_line, b'\n');
    if !polynomial_in(b"b=", third_line, b) {
        return Err(Refusal::Malformed(3));
    }
    let more = past(third_line, b'\n');
    if !more.is_empty() {
        return Err(Refusal::Malformed(4));
    }
    calls_product::product(set, a, b, &mut list[..s.n])?;
    Ok(set)
}

pub fn line(input: &[u8], output: &mut [u8; OUTPUT_ROOM]) -> usize
    ensures { Line input.now output.old result output.new }
{
    prove!(output.len() == 16384);
    let mut list = rooms::numbers();
    match product_in(input, &mut list) {
        Ok(set) => put_lines(set, &list[..set], output),
        Err(refusal) => put_answer(Err(refusal), output),
    }
}
