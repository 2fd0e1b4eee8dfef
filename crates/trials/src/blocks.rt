//! Blocks of event logs, for trials.
use std::alloc::{AllocError, Global};

/// The block with its check made to hold. The weights go down from the last word to the first, so this is another sum than the library's.
pub fn sealed(mut block: [u8; 512]) -> [u8; 512] {
    let (words, _) = block.as_chunks::<4>();
    let mut sum: u64 = 1;
    let mut weight: u64 = 253;
    for word in words[..127].iter().rev() {
        let [a, b, c, d] = *word;
        let high = u64::from(a) * 256 + u64::from(b);
        let low = u64::from(c) * 256 + u64::from(d);
        sum = sum.wrapping_add(weight.wrapping_mul(high * 65536 + low));
        weight = weight.wrapping_sub(2);
    }
    let check = (sum & 0xffff_ffff) as u32;
    block[508..].copy_from_slice(&check.to_be_bytes());
    block
}

/// A block of zeros but for its head: the number, which is below 256, the count, and the fourth byte.
pub fn headed(number: u8, count: u8, fourth: u8) -> [u8; 512] {
    let mut block = [0; 512];
    block[1] = number;
    block[2] = count;
    block[3] = fourth;
    block
}

/// The log of two blocks.
pub fn two_blocks(heap: Global, first: &[u8], second: &[u8]) -> Result<Vec<u8>, AllocError> {
    let mut log = Vec::new(heap);
    log.extend_from_slice(first)?;
    log.extend_from_slice(second)?;
    Ok(log)
}
