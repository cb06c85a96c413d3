// Rooms for the buffers of a call: arrays, as a controller with no allocator lends them. Each is long enough for one place more than the larger set asks for.
ghost use Rattle.std.specs.Prelude.{◌≡◌, ◌↔◌, ℕ, ◌+◌, ◌*◌, ◌/◌, ◌%◌, ◌<◌, ◌≤◌, ◌==◌, All, EachIndex, IsTrue, length, replicate, slice_index, slice_set, take, take_while, zip};
ghost use Rattle.std.proofs.Common.{rules, true};
ghost use Rattle.bench_rooms.specs.Rooms.{IsRoomOf, number_at, stored, unpacked_count};

// Where a clause says how long a room is, it says the number: by these names it would hold for any other.
pub const BYTES: usize = 3457;

pub const NUMBERS: usize = 1153;

// What an output is filled with before a call.
pub trait Unwritten: Copy + PartialEq {
    ghost FILL: { Self };

    const FILL: Self;

    // A value is told from it by `==`.
    ghost told_apart: { (x : Self) → Self.eq x FILL ≡ true ↔ x ≡ FILL };
}

impl Unwritten for u8 {
    ghost FILL = { 165 };

    const FILL: u8 = 0xA5;

    ghost told_apart = { Prim.search rules };
}

impl Unwritten for u16 {
    ghost FILL = { 42405 };

    const FILL: u16 = 0xA5A5;

    ghost told_apart = { Prim.search rules };
}

// Whether an output still holds what it was filled with.
pub fn kept<T: Unwritten>(room: &[T]) -> bool
    ensures { IsTrue result ↔ All (λ x. x ≡ T.FILL) room.now }
{
    room.iter().all(|x| *x == T::FILL)
}

// The first n places, or all where there are fewer.
pub fn part<T>(room: &[T], n: usize) -> &[T]
    ensures { result.now ≡ take n room.now }
{
    &room[..n.min(room.len())]
}

// The same, to be written. What the room ends as is not said: the library says it of no part by a range, and a clause here got no proof.
pub fn part_mut<T>(room: &mut [T], n: usize) -> &mut [T]
    ensures { result.now ≡ take n room.old }
{
    let end = n.min(room.len());
    &mut room[..end]
}

// Stores each value at its place, if the room has it. By index, since of a write through `get_mut` a proof knows nothing.
fn put<T: Copy>(room: &mut [T], values: &[(usize, T)])
    ensures { room.new ≡ stored room.old values.now }
{
    for (place, value) in values {
        if *place < room.len() {
            room[*place] = *value;
        }
    }
}

// A list of zeros but for one number.
pub fn zeros_but(place: usize, number: u16) -> [u16; NUMBERS]
    ensures length { 1153 ≡ length result }
    ensures numbers { result ≡ slice_set (replicate NUMBERS 0) place number }
{
    let mut room = [0; NUMBERS];
    put(&mut room, &[(place, number)]);
    room
}

// The numbers 0, 1, .., 1152. Each fits in 16 bits; `try_from` would bring a failure that can't happen.
pub fn ramp() -> [u16; NUMBERS]
    ensures length { 1153 ≡ length result }
    ensures numbers { EachIndex result (λ k. slice_index result k ≡ k) }
{
    let mut room = [0; NUMBERS];
    for (k, x) in room.iter_mut().enumerate() {
        *x = k as u16;
    }
    room
}

// Writes three bytes again and again, as often as all three fit. Here, in `count_up` and in `unpack` each turn tests its place: of what
// `take` of `iter_mut` writes, a proof knows no more than the length.
fn repeat(room: &mut [u8], bytes: [u8; 3])
    ensures bytes { (k : ℕ) → k < length room.old / 3 * 3 → slice_index room.new k ≡ slice_index bytes (k % 3) }
    ensures rest { (k : ℕ) → length room.old / 3 * 3 ≤ k → slice_index room.new k ≡ slice_index room.old k }
{
    let end = room.len() / 3 * 3;
    for (k, x) in room.iter_mut().enumerate() {
        if k < end {
            *x = bytes[k % 3];
        }
    }
}

// Writes 1, 2, .., 32.
fn count_up(room: &mut [u8])
    ensures bytes { (k : ℕ) → k < 32 → k < length room.old → slice_index room.new k ≡ k + 1 }
    ensures rest { (k : ℕ) → 32 ≤ k → slice_index room.new k ≡ slice_index room.old k }
{
    for (k, x) in room.iter_mut().enumerate() {
        if k < 32 {
            *x = k as u8 + 1;
        }
    }
}

// The bytes of an input: all alike, three again and again, zeros but for some places, or 1, 2, .., 32 and then zeros.
#[derive(Clone, Copy)]
pub enum Input<'a> {
    Filled(u8),
    Triples([u8; 3]),
    ZerosBut(&'a [(usize, u8)]),
    Counting,
}

pub const ZEROS: Input<'static> = Input::Filled(0);

impl Input<'_> {
    pub fn room(self) -> [u8; BYTES]
        ensures length { 3457 ≡ length result }
        ensures bytes { IsRoomOf self.entry result }
    {
        let mut room = [0; BYTES];
        match self {
            Input::Filled(byte) => room.fill(byte),
            Input::Triples(bytes) => repeat(&mut room, bytes),
            Input::ZerosBut(values) => put(&mut room, values),
            Input::Counting => count_up(&mut room),
        }
        room
    }
}

// Number k of a packed image, 12 bits each: a byte and the low half of the next, then the high half and the third byte.
fn number(packed: &[u8], k: usize) -> u16
    requires { k / 2 * 3 + 2 < length packed.now }
    ensures { result ≡ number_at packed.now k }
{
    let at = k / 2 * 3;
    let middle = u16::from(packed[at + 1]);
    if k % 2 == 0 {
        u16::from(packed[at]) + middle % 16 * 256
    } else {
        middle / 16 + u16::from(packed[at + 2]) * 16
    }
}

// The numbers of a packed image, as many pairs as both have. It reads by code of its own what the library packed, and calls nothing of `packing`.
pub fn unpack(packed: &[u8], out: &mut [u16])
    ensures numbers { (k : ℕ) → k < unpacked_count (length packed.now) (length out.old) → slice_index out.new k ≡ number_at packed.now k }
    ensures rest { (k : ℕ) → unpacked_count (length packed.now) (length out.old) ≤ k → slice_index out.new k ≡ slice_index out.old k }
{
    let count = (packed.len() / 3).min(out.len() / 2) * 2;
    for (k, x) in out.iter_mut().enumerate() {
        if k < count {
            *x = number(packed, k);
        }
    }
}

// How many places from the start on hold the same in both.
pub fn agreeing(a: &[u16], b: &[u16]) -> usize
    ensures { result ≡ length (take_while (λ p. p.0 == p.1) (zip a.now b.now)) }
{
    a.iter().zip(b).take_while(|(x, y)| x == y).count()
}
