// Two lists of n numbers to their product.
#![tactic(auto)]

ghost use Rattle.calls_product.specs.Product.{Product};

use answers::{Answer, Refusal};
use residue::scan::first_large;

pub fn product(set: usize, a: &[u16], b: &[u16], out: &mut [u16]) -> Answer
    ensures { Product set a.now b.now out.old result out.new }
{
    let s = answers::set_of(set).ok_or(Refusal::UnknownSet)?;
    if !(a.len() == s.n && b.len() == s.n && out.len() == s.n) {
        return Err(Refusal::WrongLength);
    }
    if let Some(at) = answers::through(s.n, first_large(a), first_large(b)) {
        return Err(Refusal::TooLarge(at));
    }
    ring::product(s.half, a, b, out);
    Ok(())
}
