// The listing: bytes to bits, block by block, and back. A block is 16 rows; row l holds bit l of each 16-bit half word in turn.
// Bits stay bytes, with `Below` in contracts: they take part in sums, and the listing is said of numbers.
#![tactic(auto)]

ghost use Rattle.std.specs.Prelude.{◌≡◌, ◌∷◌, ◌+◌, ◌-◌, ◌*◌, ◌/◌, ◌%◌, ◌≤◌, ◌<◌, length, get_or};
ghost use Rattle.lists.specs.Tab.{tab};
ghost use Rattle.lists.specs.Below.{Below};
ghost use Rattle.bits.specs.Bits.{number, bit_of};
ghost use Rattle.bits.specs.Blocks.{blocks};
ghost use Rattle.bits.specs.Listing.{listed_block, unlisted_block, listed, unlisted};

// The length of the first block of the bits that are left.
fn first_block(left: usize) -> usize
    requires { (0 < left) × (left % 32 ≡ 0) }
    ensures { (blocks left ≡ result ∷ blocks (left - result)) × (0 < result) × (result ≤ left) × (result % 32 ≡ 0) }
{
    match left {
        256.. => 256,
        128.. => 128,
        64.. => 64,
        _ => 32,
    }
}

// Bit l of half word u.
fn half_word_bit(bytes: &[u8], u: usize, l: usize) -> u8
    requires { (2 * u + 1 < length bytes.now) × (l < 16) }
    ensures { result ≡ bit_of bytes.now (16 * u + l) }
{
    let half_word = u16::from_le_bytes([bytes[2 * u], bytes[2 * u + 1]]);
    ((half_word >> l) % 2) as u8
}

// Bit l of each half word. The bytes are read by the place: of what a `zip` of `iter_mut` writes, a proof knows no more than the length.
fn list_row(bytes: &[u8], l: usize, row: &mut [u8])
    requires { (2 * length row.old ≤ length bytes.now) × (l < 16) }
    ensures { row.new ≡ tab (length row.old) (λ u. bit_of bytes.now (16 * u + l)) }
{
    for (u, bit) in row.iter_mut().enumerate() {
        *bit = half_word_bit(bytes, u, l);
    }
}

// One block: its rows, one after the other.
fn list_block(bytes: &[u8], bits: &mut [u8])
    requires { (length bits.old ≡ 8 * length bytes.now) × (length bits.old % 32 ≡ 0) }
    ensures { bits.new ≡ listed_block (length bits.old) bytes.now }
{
    let width = bits.len() / 16;
    // By places and not by `chunks_exact_mut`: of what is written through that, a proof knows no more than the length.
    for l in 0..16 {
        list_row(bytes, l, &mut bits[l * width..(l + 1) * width]);
    }
}

// Bytes to bits.
pub fn list(bytes: &[u8], bits: &mut [u8])
    requires { (length bits.old ≡ 8 * length bytes.now) × (length bits.old % 32 ≡ 0) }
    ensures { bits.new ≡ listed bytes.now }
{
    let n = bits.len();
    let mut at = 0;
    // The width changes from block to block, and no range steps so: the place goes on by hand. An iterator over the blocks would be longer.
    while at < n {
        let end = at + first_block(n - at);
        list_block(&bytes[at / 8..end / 8], &mut bits[at..end]);
        at = end;
    }
}

// The byte of eight bits that stand a stride apart, the lowest one at `at`.
fn gather(bits: &[u8], at: usize, stride: usize) -> u8
    requires { (at + 7 * stride < length bits.now) × Below 2 bits.now }
    ensures { result ≡ number 8 (λ b. get_or bits.now (at + b * stride) 0) }
{
    // A loop and no `fold`: no proof was found that the byte fits, with a closure.
    let mut byte = 0;
    for b in (0..8).rev() {
        byte = 2 * byte + bits[at + b * stride];
    }
    byte
}

// One block, back to bytes: of half word u the low byte from rows 0 to 7 and the high byte from rows 8 to 15.
fn unlist_block(bits: &[u8], bytes: &mut [u8])
    requires { (length bits.now ≡ 8 * length bytes.old) × (length bits.now % 32 ≡ 0) × Below 2 bits.now }
    ensures { bytes.new ≡ unlisted_block (length bits.now) bits.now }
{
    let stride = bits.len() / 16;
    // A turn writes two bytes: with one byte a turn, a block of 256 bits took more than twice as long.
    for u in 0..stride {
        bytes[2 * u] = gather(bits, u, stride);
        bytes[2 * u + 1] = gather(bits, 8 * stride + u, stride);
    }
}

// Bits back to bytes.
pub fn unlist(bits: &[u8], bytes: &mut [u8])
    requires { (length bits.now ≡ 8 * length bytes.old) × (length bits.now % 32 ≡ 0) × Below 2 bits.now }
    ensures { bytes.new ≡ unlisted bits.now }
{
    let n = bits.len();
    let mut at = 0;
    // As in `list`. The buffer that is written is the other one, so one function over the step of a block would be no shorter.
    while at < n {
        let end = at + first_block(n - at);
        unlist_block(&bits[at..end], &mut bytes[at / 8..end / 8]);
        at = end;
    }
}
