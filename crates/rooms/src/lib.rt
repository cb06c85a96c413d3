// Working room for a call, long enough for the larger set. It holds zeros at first. It is an array, since there is no heap: memory is fixed.
// Two functions and no generic one, with which each of the callers would name a type and a size beside the name of its room.
#![tactic(auto)]

ghost use Rattle.std.specs.Prelude.{◌≡◌, length};

// For n numbers.
pub fn numbers() -> [u16; 1152]
    ensures { 1152 ≡ length result }
{
    [0; 1152]
}

// For 2n bits.
pub fn bits() -> [u8; 2304]
    ensures { 2304 ≡ length result }
{
    [0; 2304]
}
