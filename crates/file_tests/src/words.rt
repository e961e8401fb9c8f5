// The words of files, as numbers: by the functions of `word` they would be made by what is tested.
use std::alloc::{AllocError, Global};

// The small harbour: two buses, a machine of each kind, one branch.
pub(crate) const CASE: [u32; 33] = [
    0x1000_0001,
    0x6000_0000,
    0x6000_0002,
    0x6000_0001,
    0x6000_0001,
    0x6000_0001,
    0x2000_0001,
    0x6000_0000,
    0x2000_0002,
    0x6000_03e8,
    0x3000_0301,
    0x6000_0000,
    0x6000_07d0,
    0x6000_0000,
    0x6000_0000,
    0x6000_0258,
    0x6000_07d0,
    0x6000_0014,
    0x6000_0032,
    0x4000_0002,
    0x6000_0000,
    0x6000_03e8,
    0x6000_0000,
    0x6000_001e,
    0x6000_01f4,
    0x5001_0102,
    0x6000_000a,
    0x6000_0000,
    0x6000_0320,
    0x6f9e_5800,
    0x6061_a800,
    0x6000_0001,
    END,
];

// A dispatch that meets the case: powers 600 and 400, angle -60.
pub(crate) const DISPATCH: [u32; 5] = [0x1000_0002, 0x6000_0258, 0x6000_0190, 0x6fff_ffc4, END];

// A lawful price list: 30 at both buses.
pub(crate) const PRICES: [u32; 6] = [0x1000_0003, 0x6000_001e, 0x6000_001e, ZERO, ZERO, END];

// What is printed of a file of these three papers.
pub(crate) const TEXT: &[u8] =
    b"CASE\nHELD 24080\nHELD 24000\nWATCH 1\nHELD 2\nPASSED 0\nDECLINED 0\nCHANGES 0\nCOST 24080\nFLOOR 24000\nGAP 80\n";

// The amount 0, and the end of a paper.
pub(crate) const ZERO: u32 = 0x6000_0000;

pub(crate) const END: u32 = 0x7000_0000;

// The bytes of the papers, one after another.
pub(crate) fn file_of(heap: Global, papers: &[&[u32]]) -> Result<Vec<u8>, AllocError> {
    let mut bytes = Vec::new(heap);
    for paper in papers {
        for word in paper.iter() {
            bytes.extend_from_slice(&word.to_be_bytes())?;
        }
    }
    Ok(bytes)
}

// The bytes of a file of the case, a dispatch and a price list.
pub(crate) fn small_file(heap: Global) -> Result<Vec<u8>, AllocError> {
    file_of(heap, &[&CASE, &DISPATCH, &PRICES])
}
