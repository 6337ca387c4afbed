//! The fields of a binary LUKS2 header, put into their places.
ghost use Rattle.std.specs.Prelude.{◌≡◌, ℕ, length, slice_index};
ghost use Rattle.luks2_header.specs.Header2.{binary_header_size};
ghost use Rattle.luks2_header.specs.Written.{WritesBin2};

use crate::bin2::Bin2;
use crate::bin2_places as place;
use luks1_header::fields::{put, put_u16, put_u64};

/// Puts the fields into zeros.
pub(crate) fn put_header(bytes: &mut [u8], header: &Bin2)
    requires long { length bytes.old ≡ binary_header_size }
    requires blank { (k : ℕ) → slice_index bytes.old k ≡ 0 }
    ensures { WritesBin2 bytes.new header.now }
{
    put(bytes, 0, &header.magic);
    put_u16(bytes, place::VERSION, header.version);
    put_u64(bytes, place::HDR_SIZE, header.hdr_size);
    put_u64(bytes, place::SEQID, header.seqid);
    put(bytes, place::LABEL, &header.label);
    put(bytes, place::CSUM_ALG, &header.csum_alg);
    put(bytes, place::SALT, &header.salt);
    put(bytes, place::UUID, &header.uuid);
    put(bytes, place::SUBSYSTEM, &header.subsystem);
    put_u64(bytes, place::HDR_OFFSET, header.hdr_offset);
    put(bytes, place::CSUM, &header.csum);
}
