// What a call can answer, and what a set number decides.
#![tactic(auto)]

ghost use Rattle.std.specs.Prelude.{◌≡◌, IfSome, Err, ◌+◌, ◌<◌, option_map};
ghost use Rattle.std.specs.Option.{option_or};
ghost use Rattle.answers.specs.Answers.{number_of, place_of};
ghost use Rattle.answers.specs.Sets.{set_of};

// Why a call was not done. A case holds what goes with it: nothing, or the place.
#[derive(Clone, Copy, PartialEq, Eq)]
pub enum Refusal {
    UnknownSet,
    WrongLength,
    TooLarge(usize),
    ZeroSlot(usize),
    BadMark(usize),
    Differs,
    Malformed(usize),
}

// Done, or why not. Two numbers come of it, its number and its place, so neither is a `From`.
pub type Answer = Result<(), Refusal>;

impl Refusal {
    pub fn number(self) -> usize
        ensures { result ≡ number_of (Err self) }
    {
        match self {
            Refusal::UnknownSet => 1,
            Refusal::WrongLength => 2,
            Refusal::TooLarge(_) => 3,
            Refusal::ZeroSlot(_) => 4,
            Refusal::BadMark(_) => 5,
            Refusal::Differs => 6,
            Refusal::Malformed(_) => 7,
        }
    }

    pub fn place(self) -> usize
        ensures { result ≡ place_of (Err self) }
    {
        match self {
            Refusal::UnknownSet | Refusal::WrongLength | Refusal::Differs => 0,
            Refusal::TooLarge(at)
            | Refusal::ZeroSlot(at)
            | Refusal::BadMark(at)
            | Refusal::Malformed(at) => at,
        }
    }
}

pub fn number(answer: Answer) -> usize
    ensures { result ≡ number_of answer }
{
    answer.err().map_or(0, Refusal::number)
}

pub fn place(answer: Answer) -> usize
    ensures { result ≡ place_of answer }
{
    answer.err().map_or(0, Refusal::place)
}

// What a set number decides: n, half of it, the slots, the root and the step with root = 7^step, and every length of the table of calls.
#[derive(Clone, Copy)]
pub struct Parameters {
    pub n: usize,
    pub half: usize,
    pub slots: usize,
    pub root: u16,
    pub step: usize,
    pub seed: usize,
    pub packed: usize,
    pub private: usize,
    pub hblock: usize,
    pub message: usize,
    pub gblock: usize,
    pub key: usize,
}

// Any number can come, and is compared at its full width.
pub fn set_of(set: usize) -> Option<Parameters>
    ensures { result ≡ set_of set }
{
    match set {
        576 => Some(Parameters {
            n: 576,
            half: 288,
            slots: 576,
            root: 49,
            step: 2,
            seed: 288,
            packed: 864,
            private: 1728,
            hblock: 176,
            message: 72,
            gblock: 144,
            key: 32,
        }),
        1152 => Some(Parameters {
            n: 1152,
            half: 576,
            slots: 1152,
            root: 7,
            step: 1,
            seed: 576,
            packed: 1728,
            private: 3456,
            hblock: 320,
            message: 144,
            gblock: 288,
            key: 32,
        }),
        _ => None,
    }
}

// A place found in one of two inputs, counted through both, of which the first holds n numbers.
pub fn through(n: usize, first: Option<usize>, rest: Option<usize>) -> Option<usize>
    requires { IfSome rest (λ at. n + at < 65536) }
    ensures { result ≡ option_or first (option_map (λ at. n + at) rest) }
{
    first.or(rest.map(|at| n + at))
}
