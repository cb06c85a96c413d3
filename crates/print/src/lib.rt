// Printing into a lent buffer: each method writes its text at the place after what stands there.
#![tactic(auto)]

ghost use Rattle.std.specs.Prelude.{◌≡◌, [], ◌∷◌, ◌<◌, ◌≤◌, length};
ghost use Rattle.print.specs.Printing.{decimal, printed_term, printed_polynomial};
ghost use Rattle.print.specs.Places.{printed_place};
ghost use Rattle.print.specs.Page.{Room, Prints};

// A lent buffer that is written from the left, and the place after what is written. It has room for what is put, so it is no
// `fmt::Write`, whose methods answer a Result.
#[derive(Drop)]
pub struct Page<'a> {
    pub out: &'a mut [u8],
    pub at: usize,
}

impl Page<'_> {
    pub fn put_byte(&mut self, byte: u8)
        requires { Room self.old (byte ∷ []) }
        ensures { Prints self.old (byte ∷ []) self.new }
    {
        self.out[self.at] = byte;
        self.at += 1;
    }

    pub fn put(&mut self, text: &[u8])
        requires { Room self.old text.now }
        ensures { Prints self.old text.now self.new }
    {
        let end = self.at + text.len();
        self.out[self.at..end].copy_from_slice(text);
        self.at = end;
    }

    // A number below 100,000: the digits before the last, if there are any, and the last.
    pub fn put_decimal(&mut self, v: usize)
        requires { (v < 100000) × Room self.old (decimal v) }
        ensures { Prints self.old (decimal v) self.new }
    {
        if v >= 10 {
            self.put_decimal(v / 10);
        }
        self.put_byte(b'0' + (v % 10) as u8);
    }

    // A term, `index:value`.
    pub fn put_term(&mut self, i: usize, v: u16)
        requires { (i < 100000) × Room self.old (printed_term i v) }
        ensures { Prints self.old (printed_term i v) self.new }
    {
        self.put_decimal(i);
        self.put_byte(b':');
        self.put_decimal(usize::from(v));
    }

    // What place i of a polynomial adds to the terms before it. Whether it is the first is a yes or no, with no value beside it.
    fn put_place(&mut self, first: bool, i: usize, v: u16)
        requires { (i < 100000) × Room self.old (printed_place first i v) }
        ensures { Prints self.old (printed_place first i v) self.new }
    {
        if v == 0 {
            return;
        }
        if !first {
            self.put_byte(b',');
        }
        self.put_term(i, v);
    }

    // The nonzero terms of a list. As long as nothing is printed, the next term is the first.
    pub fn put_polynomial(&mut self, list: &[u16])
        requires { (length list.now ≤ 100000) × Room self.old (printed_polynomial list.now) }
        ensures { Prints self.old (printed_polynomial list.now) self.new }
    {
        let start = self.at;
        for (i, v) in list.iter().enumerate() {
            self.put_place(self.at == start, i, *v);
        }
    }
}
