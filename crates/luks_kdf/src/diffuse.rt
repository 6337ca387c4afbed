//! The diffusion of the anti-forensic splitter, in place (LUKS1 On-Disk Format 1.2.3, 2.4).

ghost use Rattle.std.specs.Prelude.{◌≡◌, ◌≤◌, length};
ghost use Rattle.luks_kdf.specs.Splitter.{diffused, diffuse};

use crate::hash::HashFn;

// Diffuses each block of the hash's length by itself, the first ones side by side.
pub(crate) fn diffuse<H: HashFn>(bytes: &mut [u8])
    requires { length bytes.old ≤ 128 }
    ensures { bytes.new ≡ diffuse H.digest H.LEN bytes.old }
{
    let count = bytes.len().div_ceil(H::LEN);
    let done = H::diffuse_side_by_side(bytes);
    for j in done..count {
        let start = j * H::LEN;
        let end = (start + H::LEN).min(bytes.len());
        diffuse_block::<H>(&mut bytes[start..end], j as u32);
    }
}

// Diffuses one block, which is no longer than a digest.
fn diffuse_block<H: HashFn>(block: &mut [u8], number: u32)
    requires { length block.old ≤ H.LEN }
    ensures { block.new ≡ diffused H.digest number block.old }
{
    let mut state = H::start();
    state.feed(&number.to_be_bytes());
    state.feed(block);
    let mut buffer = [0u8; 64];
    let digest = &mut buffer[..H::LEN];
    state.finish(digest);
    block.copy_from_slice(&digest[..block.len()]);
}
