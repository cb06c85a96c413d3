// The tests of a call that takes one list of n numbers to another.
ghost use Rattle.calls_transforms.specs.Tests.{Tells};

use answers::{Parameters, Refusal};
use residue::scan::first_large;

// The set's parameters where no refusal applies.
pub(crate) fn test_list(set: usize, a: &[u16], room: usize) -> Result<Parameters, Refusal>
    ensures { Tells set a.now room result }
{
    let s = answers::set_of(set).ok_or(Refusal::UnknownSet)?;
    if !(a.len() == s.n && room == s.n) {
        return Err(Refusal::WrongLength);
    }
    if let Some(at) = first_large(a) {
        return Err(Refusal::TooLarge(at));
    }
    Ok(s)
}
