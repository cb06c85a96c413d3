// A message as a small polynomial, and back. Coefficients are written as residues, -1 as 3456, and read as marks.
// The rooms for bits are lent, as `bench_steps` has them from C.
#![tactic(auto)]

ghost use Rattle.std.specs.Prelude.{map, ◌≡◌, ◌+◌, ◌*◌, ◌%◌, ◌<◌, length, get_or};
ghost use Rattle.lists.specs.Tab.{tab};
ghost use Rattle.lists.specs.Below.{Below};
ghost use Rattle.residue.specs.Signed.{residue_of};
ghost use Rattle.marks.specs.Marks.{of_mark};
ghost use Rattle.encoding.specs.Encoding.{encode_bit, decode_bit, encoded, decoded};

use residue::Residue;

// (message XOR first) - second, of three bits.
fn encode_bit(message: u8, first: u8, second: u8) -> Residue
    requires { (message < 2) × (first < 2) × (second < 2) }
    ensures { result.value ≡ residue_of (encode_bit message first second) }
{
    small::difference(message ^ first, second)
}

// ((coefficient + second) mod 2) XOR first, where a mark stands for the coefficient: 1 and 2 are odd.
fn decode_bit(mark: u8, first: u8, second: u8) -> u8
    requires { (mark < 3) × (first < 2) × (second < 2) }
    ensures { result ≡ decode_bit (of_mark mark) first second }
{
    ((mark + mark / 2 + second) % 2) ^ first
}

// The coefficients that the bits of a message and of two halves encode.
fn encode_bits(bits: &[u8], halves: &[u8], coefficients: &mut [u16])
    requires { (length bits.now ≡ length coefficients.old) × (length halves.now ≡ length coefficients.old + length coefficients.old) × Below 2 bits.now × Below 2 halves.now }
    ensures { coefficients.new ≡ tab (length coefficients.old) (λ i. residue_of (encode_bit (get_or bits.now i 0) (get_or halves.now i 0) (get_or halves.now (length coefficients.old + i) 0))) }
{
    let n = coefficients.len();
    // Here and in `decode_bits` the other lists are read by the place: of what a `zip` of `iter_mut` writes, a proof knows no more than the length.
    for (i, coefficient) in coefficients.iter_mut().enumerate() {
        *coefficient = encode_bit(bits[i], halves[i], halves[n + i]).value;
    }
}

// Encodes a message of n/8 bytes with n/4 bytes. `bits` is room for n bits, `halves` for 2n.
pub fn encode(
    message: &[u8],
    block: &[u8],
    bits: &mut [u8],
    halves: &mut [u8],
    coefficients: &mut [u16],
)
    requires message_len { (length message.now % 4 ≡ 0) × (length block.now ≡ 2 * length message.now) }
    requires bits_len { (length bits.old ≡ 8 * length message.now) × (length halves.old ≡ 16 * length message.now) × (length coefficients.old ≡ 8 * length message.now) }
    ensures { coefficients.new ≡ map residue_of (encoded message.now block.now) }
{
    bits::list(message, bits);
    small::list_halves(block, halves);
    encode_bits(bits, halves, coefficients);
}

// The message bits that marks and the bits of two halves decode to. A function over the step, for this and `encode_bits`, would be no
// shorter: they read and write other things.
fn decode_bits(marks: &[u8], halves: &[u8], bits: &mut [u8])
    requires { (length marks.now ≡ length bits.old) × (length halves.now ≡ length bits.old + length bits.old) × Below 3 marks.now × Below 2 halves.now }
    ensures { bits.new ≡ tab (length bits.old) (λ i. decode_bit (of_mark (get_or marks.now i 0)) (get_or halves.now i 0) (get_or halves.now (length bits.old + i) 0)) }
{
    let n = bits.len();
    for (i, bit) in bits.iter_mut().enumerate() {
        *bit = decode_bit(marks[i], halves[i], halves[n + i]);
    }
}

// Decodes n marks with n/4 bytes. `bits` is room for n bits, `halves` for 2n.
pub fn decode(marks: &[u8], block: &[u8], bits: &mut [u8], halves: &mut [u8], message: &mut [u8])
    requires message_len { (length message.old % 4 ≡ 0) × (length block.now ≡ 2 * length message.old) × (length marks.now ≡ 8 * length message.old) × Below 3 marks.now }
    requires bits_len { (length bits.old ≡ 8 * length message.old) × (length halves.old ≡ 16 * length message.old) }
    ensures { message.new ≡ decoded (map of_mark marks.now) block.now }
{
    small::list_halves(block, halves);
    decode_bits(marks, halves, bits);
    bits::unlist(bits, message);
}
