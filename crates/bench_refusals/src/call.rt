// The nine calls whose row document 01's table of calls has.
use std::fmt;

// An enum, and not nine impls of a trait or nine closures: one table of lengths is read at a glance, and no function pointer may be handed out.
#[derive(Clone, Copy)]
pub enum Call {
    Product,
    Transform,
    Reverse,
    Make,
    RImage,
    Seal,
    OpenOne,
    OpenTwo,
    OpenThree,
}

pub const CALLS: [Call; 9] = [
    Call::Product,
    Call::Transform,
    Call::Reverse,
    Call::Make,
    Call::RImage,
    Call::Seal,
    Call::OpenOne,
    Call::OpenTwo,
    Call::OpenThree,
];

// Where the outputs stand in a row of lengths.
pub const OUTPUT: usize = 4;

pub const OTHER_OUTPUT: usize = 5;

impl Call {
    // The row for n: the lengths of up to four inputs, and of the outputs.
    pub fn lengths(self, n: u16) -> [Option<usize>; 6] {
        let n = usize::from(n);
        let packed = n / 2 * 3;
        match self {
            Call::Product => [Some(n), Some(n), None, None, Some(n), None],
            Call::Transform => [Some(n), None, None, None, Some(n), None],
            Call::Reverse => [Some(n), None, None, None, Some(n), None],
            Call::Make => [Some(n / 2), None, None, None, Some(packed), Some(n * 3)],
            Call::RImage => [Some(32 + n / 4), None, None, None, Some(packed), None],
            Call::Seal => [
                Some(packed),
                Some(n / 8),
                Some(32 + n / 4),
                Some(n / 4),
                Some(packed),
                Some(32),
            ],
            Call::OpenOne => [Some(n * 3), Some(packed), None, None, Some(n), Some(packed)],
            Call::OpenTwo => [Some(n), Some(n / 4), None, None, Some(n / 8), None],
            Call::OpenThree => [Some(packed), Some(32 + n / 4), None, None, Some(32), None],
        }
    }
}

impl fmt::Display for Call {
    fn fmt<W: fmt::Write>(&self, f: &mut fmt::Formatter<W>) -> fmt::Result {
        f.write_str(match self {
            Call::Product => "product",
            Call::Transform => "transform",
            Call::Reverse => "reverse",
            Call::Make => "make",
            Call::RImage => "r-image",
            Call::Seal => "seal",
            Call::OpenOne => "open-1",
            Call::OpenTwo => "open-2",
            Call::OpenThree => "open-3",
        })
    }
}
