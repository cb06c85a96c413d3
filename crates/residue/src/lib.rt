// Residues modulo 3457 and their steps. Sums and differences compare and subtract; `mul` alone reduces.
#![tactic(auto)]

ghost use Rattle.std.specs.Prelude.{◌≡◌, ◌<◌};
ghost use Rattle.residue.specs.Field.{q, one, generator, addq, subq, negq, mulq, powq, invq};
ghost use Rattle.residue.specs.Signed.{centred, by_three, centred_by_three};

pub mod scan;

// The numbers that the residue's own constants hold, for clauses: a clause can't name a constant whose type has an invariant.
pub const ONE: u16 = Residue::ONE.value;

pub const GENERATOR: u16 = Residue::GENERATOR.value;

// A residue modulo 3457, by the number below 3457 that stands for it. A list of residues stays a list of numbers, with `Residues` in
// contracts. C lends such lists, and they are tested where they lie; each step writes into a lent list too, so a type for checked
// lists would be wrapped anew at each step.
#[derive(Clone, Copy, PartialEq, Eq)]
pub struct Residue {
    pub value: u16,
    pub ghost below: { value < q },
}

impl Residue {
    pub const ZERO: Residue = Residue { value: 0 };

    pub const ONE: Residue = Residue { value: 1 };

    pub const GENERATOR: Residue = Residue { value: 7 };

    // A law, which no code calls: the constants are 0 and the definitions' `one` and `generator`.
    pub fn constants() -> (Residue, Residue, Residue)
        ensures { (result.0.value ≡ 0) × (result.1.value ≡ one) × (result.2.value ≡ generator) }
    {
        (Residue::ZERO, Residue::ONE, Residue::GENERATOR)
    }

    pub fn add(self, other: Residue) -> Residue
        ensures { result.value ≡ addq self.value other.value }
    {
        let sum = self.value + other.value;
        let value = if sum < 3457 { sum } else { sum - 3457 };
        Residue { value }
    }

    pub fn sub(self, other: Residue) -> Residue
        ensures { result.value ≡ subq self.value other.value }
    {
        let a = self.value;
        let b = other.value;
        let value = if b <= a { a - b } else { a + 3457 - b };
        Residue { value }
    }

    pub fn neg(self) -> Residue
        ensures { result.value ≡ negq self.value }
    {
        Residue::ZERO.sub(self)
    }

    // The one reduction by 3457.
    pub fn mul(self, other: Residue) -> Residue
        ensures { result.value ≡ mulq self.value other.value }
    {
        let a = u32::from(self.value);
        let b = u32::from(other.value);
        Residue {
            value: (a * b % 3457) as u16,
        }
    }

    // From the power of half the exponent. Anything to the power 0 is 1.
    pub fn pow(self, e: u32) -> Residue
        ensures { result.value ≡ powq self.value e }
    {
        if e == 0 {
            return Residue::ONE;
        }
        let half = self.pow(e / 2);
        let square = half.mul(half);
        if e % 2 == 0 { square } else { square.mul(self) }
    }

    // By Fermat. The inverse of 0 is given as 0; no caller may rest on it.
    pub fn inv(self) -> Residue
        ensures { result.value ≡ invq self.value }
    {
        self.pow(3455)
    }

    // The value congruent to the residue in -1728..1728. The sign is taken last.
    pub fn centred(self) -> i32
        ensures { result ≡ centred self.value }
    {
        let a = self.value;
        if a <= 1728 {
            i32::from(a)
        } else {
            -i32::from(3457 - a)
        }
    }

    // Centred first, then by 3: -1, 0 or 1.
    pub fn centred_by_three(self) -> i32
        ensures { result ≡ centred_by_three self.value }
    {
        by_three(self.centred())
    }
}

// The one of -1, 0 and 1 that differs from the value by a multiple of 3.
pub fn by_three(value: i32) -> i32
    ensures { result ≡ by_three value }
{
    let m = value % 3;
    match m {
        2 => -1,
        -2 => 1,
        _ => m,
    }
}
