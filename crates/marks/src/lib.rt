// Marks: a byte for each coefficient of a small polynomial, 0, 1, or 2 for -1.
// A byte and not an enum: C lends and takes marks as bytes, and they take part in sums.
#![tactic(auto)]

ghost use Rattle.std.specs.Prelude.{◌≡◌, map, ◌<◌, length, position};
ghost use Rattle.lists.specs.Below.{Below};
ghost use Rattle.residue.specs.Residues.{Residues};
ghost use Rattle.residue.specs.Signed.{centred_by_three, residue_of};
ghost use Rattle.marks.specs.Marks.{Small, mark_of, of_mark, no_mark};

use residue::Residue;

// The mark of -1, 0 or 1.
fn mark_of(value: i32) -> u8
    requires { Small value }
    ensures { result ≡ mark_of value }
{
    match value {
        0 => 0,
        1 => 1,
        _ => 2,
    }
}

// The residue of what a mark stands for.
fn residue_of(mark: u8) -> Residue
    requires { mark < 3 }
    ensures { result.value ≡ residue_of (of_mark mark) }
{
    match mark {
        0 => Residue::ZERO,
        1 => Residue::ONE,
        _ => Residue::ONE.neg(),
    }
}

// The marks of residues, each centred first and then taken by 3.
pub fn mark(list: &[u16], marks: &mut [u8])
    requires { Residues (length marks.old) list.now }
    ensures { marks.new ≡ map (λ a. mark_of (centred_by_three a)) list.now }
{
    // Here and in `unmark` the other list is read by the place: of what a `zip` of `iter_mut` writes, a proof knows no more than the length.
    for (i, mark) in marks.iter_mut().enumerate() {
        let coefficient = Residue { value: list[i] };
        *mark = mark_of(coefficient.centred_by_three());
    }
}

// The residues of what marks stand for.
pub fn unmark(marks: &[u8], list: &mut [u16])
    requires { (length marks.now ≡ length list.old) × Below 3 marks.now }
    ensures { list.new ≡ map (λ m. residue_of (of_mark m)) marks.now }
{
    for (i, x) in list.iter_mut().enumerate() {
        *x = residue_of(marks[i]).value;
    }
}

// The place of the first byte that is no mark. Never inlined: how long a turn takes depends on where in a program the loop stands.
#[tactic(auto, unfolding(crate::specs::Marks::no_mark))]
#[inline(never)]
pub fn first_bad(marks: &[u8]) -> Option<usize>
    ensures { result ≡ position no_mark marks.now }
{
    marks.iter().position(|m| *m > 2)
}
