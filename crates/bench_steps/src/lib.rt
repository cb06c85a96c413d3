// Inner steps, exported so that a benchmark can measure them; no part of libface.a. Each tests what its step asks for, and where that fails
// it does nothing. No list is longer than 4,096, so that no length overflows.
#![tactic(auto)]

ghost use Rattle.std.specs.Prelude.{IsTrue};
ghost use Rattle.residue.specs.Residues.{Residues};

use residue::scan::first_large;

fn are_residues(list: &[u16], n: usize) -> bool
    ensures { IsTrue result → Residues n list.now }
{
    list.len() == n && first_large(list).is_none()
}

#[unsafe(no_mangle)]
pub extern "C" fn step_list(bytes: &[u8], bits: &mut [u8]) {
    if bytes.len() <= 4096 && bits.len() == 8 * bytes.len() && bits.len() % 32 == 0 {
        bits::list(bytes, bits);
    }
}

#[unsafe(no_mangle)]
pub extern "C" fn step_sample(block: &[u8], halves: &mut [u8], coefficients: &mut [u16]) {
    let bytes = block.len();
    if bytes <= 4096
        && bytes % 8 == 0
        && halves.len() == 8 * bytes
        && coefficients.len() == 4 * bytes
    {
        small::sample(block, halves, coefficients);
    }
}

#[unsafe(no_mangle)]
pub extern "C" fn step_encode(
    message: &[u8],
    block: &[u8],
    bits: &mut [u8],
    halves: &mut [u8],
    coefficients: &mut [u16],
) {
    let bytes = message.len();
    if bytes <= 4096
        && bytes % 4 == 0
        && block.len() == 2 * bytes
        && bits.len() == 8 * bytes
        && halves.len() == 16 * bytes
        && coefficients.len() == 8 * bytes
    {
        encoding::encode(message, block, bits, halves, coefficients);
    }
}

#[unsafe(no_mangle)]
pub extern "C" fn step_pack(list: &[u16], bytes: &mut [u8]) {
    if list.len() <= 4096
        && list.len() % 2 == 0
        && bytes.len() == 3 * (list.len() / 2)
        && are_residues(list, list.len())
    {
        packing::pack(list, bytes);
    }
}

// The first group above 3456, or the length of the list; 0 where nothing is done. An exported function can't return an `Option`.
#[unsafe(no_mangle)]
pub extern "C" fn step_unpack(bytes: &[u8], list: &mut [u16]) -> usize {
    if list.len() <= 4096 && list.len() % 2 == 0 && bytes.len() == 3 * (list.len() / 2) {
        packing::unpack(bytes, list).unwrap_or(list.len())
    } else {
        0
    }
}

#[unsafe(no_mangle)]
pub extern "C" fn step_times(a: &[u16], b: &[u16], out: &mut [u16]) {
    // b's length first (`are_residues` tests a's), so that a wrong length is refused before a list is read.
    if b.len() == out.len() && are_residues(a, out.len()) && are_residues(b, out.len()) {
        slotwise::times(a, b, out);
    }
}

#[unsafe(no_mangle)]
pub extern "C" fn step_invert(a: &[u16], out: &mut [u16]) {
    if are_residues(a, out.len()) {
        slotwise::invert(a, out);
    }
}
