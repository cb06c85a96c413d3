// Marks to the message that they decode to.
#![tactic(auto)]

ghost use Rattle.std.specs.Prelude.{[], ◌∷◌, ◌≡◌, ◌*◌, ◌%◌, ◌≤◌, length};
ghost use Rattle.marks.specs.Marks.{no_mark};
ghost use Rattle.answers.specs.Replies.{reply, leaves, Outcome};
ghost use Rattle.answers.specs.Tests.{at_first};
ghost use Rattle.stages.specs.Opening.{opened_message};
ghost use Rattle.calls_open_2.specs.OpenTwo.{OpenTwo};

use answers::{Answer, Refusal};

// With buffers of the right lengths.
fn open_2_in(marks: &[u8], gblock: &[u8], message: &mut [u8]) -> Answer
    requires { (length message.old % 4 ≡ 0) × (length message.old ≤ 144) × (length marks.now ≡ 8 * length message.old) × (length gblock.now ≡ 2 * length message.old) }
    ensures { Outcome (at_first 5 no_mark (marks.now ∷ []) (reply 0 0)) result (λ R. message.new ≡ leaves R (opened_message marks.now gblock.now) message.old) }
{
    if let Some(at) = marks::first_bad(marks) {
        return Err(Refusal::BadMark(at));
    }
    let n = marks.len();
    let mut bits = rooms::bits();
    let mut halves = rooms::bits();
    encoding::decode(marks, gblock, &mut bits[..n], &mut halves[..n + n], message);
    Ok(())
}

pub fn open_2(set: usize, marks: &[u8], gblock: &[u8], message: &mut [u8]) -> Answer
    ensures { OpenTwo set marks.now gblock.now message.old result message.new }
{
    let s = answers::set_of(set).ok_or(Refusal::UnknownSet)?;
    if !(marks.len() == s.n && gblock.len() == s.gblock && message.len() == s.message) {
        return Err(Refusal::WrongLength);
    }
    open_2_in(marks, gblock, message)
}
