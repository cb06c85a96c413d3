// What is printed.
ghost use Rattle.std.specs.Prelude.{◌<◌, IsOk};

use crate::room::part;
use answers::Answer;
use std::fmt;

// Standard output by the kit's `io`, which stands on one function of C, `write`. Where that fails, the text is lost.
#[derive(Clone, Copy)]
pub struct Output;

impl fmt::Write for Output {
    fn write_str(&mut self, s: &str) -> fmt::Result
        ensures { IsOk result }
    {
        io::write_all(1, s.as_bytes());
        Ok(())
    }
}

// The number and the place of an answer.
#[derive(Clone, Copy)]
pub struct Answered(pub Answer);

impl fmt::Display for Answered {
    fn fmt<W: fmt::Write>(&self, f: &mut fmt::Formatter<W>) -> fmt::Result {
        let number = answers::number(self.0);
        let place = answers::place(self.0);
        write!(f, "{number} {place}")
    }
}

// An answer, and whether the outputs were kept: a yes or a no, and no value goes with it.
#[derive(Clone, Copy)]
pub struct Outcome {
    pub answer: Answer,
    pub kept: bool,
}

impl fmt::Display for Outcome {
    fn fmt<W: fmt::Write>(&self, f: &mut fmt::Formatter<W>) -> fmt::Result {
        let answered = Answered(self.answer);
        let became = if self.kept { "kept" } else { "changed" };
        write!(f, "{answered} {became}")
    }
}

// The first bytes, and how often they stand there from the start on. For a period of 0 no number is printed.
#[derive(Clone, Copy)]
pub struct Periods<'a> {
    pub bytes: &'a [u8],
    pub period: usize,
}

impl Periods<'_> {
    fn count(&self) -> usize
        requires { 0 < self.now.period }
    {
        let first = part(self.bytes, self.period);
        self.bytes
            .chunks_exact(self.period)
            .take_while(|bytes| *bytes == first)
            .count()
    }
}

impl fmt::Display for Periods<'_> {
    fn fmt<W: fmt::Write>(&self, f: &mut fmt::Formatter<W>) -> fmt::Result {
        for byte in part(self.bytes, self.period) {
            write!(f, "{byte:02X} ")?;
        }
        write!(f, "x ")?;
        if self.period > 0 {
            write!(f, "{}", self.count())?;
        }
        Ok(())
    }
}

// The first byte, how often it stands there from the start on, and the places of all that are not zero.
#[derive(Clone, Copy)]
pub struct Places<'a>(pub &'a [u8]);

impl fmt::Display for Places<'_> {
    fn fmt<W: fmt::Write>(&self, f: &mut fmt::Formatter<W>) -> fmt::Result {
        let periods = Periods {
            bytes: self.0,
            period: 1,
        };
        write!(f, "{periods}")?;
        for (i, byte) in self.0.iter().enumerate() {
            if *byte != 0 {
                write!(f, " {i}:{byte}")?;
            }
        }
        Ok(())
    }
}

// The nonzero terms of a list, from a place on.
#[derive(Clone, Copy)]
pub struct Terms<'a> {
    pub list: &'a [u16],
    pub from: usize,
}

impl fmt::Display for Terms<'_> {
    fn fmt<W: fmt::Write>(&self, f: &mut fmt::Formatter<W>) -> fmt::Result {
        for (i, number) in self.list.iter().enumerate().skip(self.from) {
            if *number != 0 {
                write!(f, " {i}:{number}")?;
            }
        }
        Ok(())
    }
}
