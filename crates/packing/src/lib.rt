// Packing of residues into bytes, and back: loops over the pairs, each number and each byte read once.
// What is written goes by places and not by `chunks_exact_mut`: of what is written through that, a proof knows no more than the length.
#![tactic(auto)]

ghost use Rattle.std.specs.Prelude.{◌≡◌, ◌*◌, ◌/◌, ◌%◌, length, position};
ghost use Rattle.residue.specs.Large.{too_large};
ghost use Rattle.residue.specs.Residues.{Residues};
ghost use Rattle.packing.specs.Packing.{packed, groups};

use residue::scan::first_large;

pub fn pack(list: &[u16], bytes: &mut [u8])
    requires list_len { length list.now % 2 ≡ 0 }
    requires bytes_len { length bytes.old ≡ 3 * (length list.now / 2) }
    requires residues { Residues (length list.now) list.now }
    ensures { bytes.new ≡ packed list.now }
{
    for (k, pair) in list.chunks_exact(2).enumerate() {
        let a = pair[0];
        let b = pair[1];
        bytes[3 * k] = (a % 256) as u8;
        bytes[3 * k + 1] = (a / 256 + 16 * (b % 16)) as u8;
        bytes[3 * k + 2] = (b / 16) as u8;
    }
}

// All groups, whether above 3456 or not.
fn unpack_pairs(bytes: &[u8], list: &mut [u16])
    requires list_len { length list.old % 2 ≡ 0 }
    requires bytes_len { length bytes.now ≡ 3 * (length list.old / 2) }
    ensures { list.new ≡ groups bytes.now }
{
    for (k, three) in bytes.chunks_exact(3).enumerate() {
        let x = u16::from(three[0]);
        let y = u16::from(three[1]);
        let z = u16::from(three[2]);
        list[2 * k] = x + 256 * (y % 16);
        list[2 * k + 1] = y / 16 + 16 * z;
    }
}

// The place of the first group above 3456.
pub fn unpack(bytes: &[u8], list: &mut [u16]) -> Option<usize>
    requires list_len { length list.old % 2 ≡ 0 }
    requires bytes_len { length bytes.now ≡ 3 * (length list.old / 2) }
    ensures list_after { list.new ≡ groups bytes.now }
    ensures value { result ≡ position too_large (groups bytes.now) }
{
    unpack_pairs(bytes, list);
    first_large(list)
}
