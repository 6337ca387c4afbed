//! The calls that are generic over the hash, each at one of its types.
use luks_kdf::{
    HashName, Merger, Sha1Fn, Sha256Fn, Sha512Fn, Splitter, hmac, merge, pbkdf2, split, xor_into,
};

/// Whether HMAC and PBKDF2 give what Python's hmac and hashlib give.
fn derive() -> bool {
    let mut tag = [0; 20];
    hmac::<Sha1Fn>(&mut tag, b"Jefe", b"what do ya want for nothing?");
    let mut key = [0; 20];
    pbkdf2::<Sha256Fn>(&mut key, b"password", b"salt", 3);
    let mut other = [0; 20];
    pbkdf2::<Sha512Fn>(&mut other, b"password", b"salt", 3);
    tag == *b"\xef\xfc\xdf\x6a\xe5\xeb\x2f\xa2\xd2\x74\x16\xd5\xf1\x84\xdf\x9c\x25\x9a\x7c\x79"
        && key
            == *b"\xad\x35\x24\x0a\xc6\x83\xfe\xbf\xaf\x3c\xd4\x9d\x84\x54\x73\xfb\xbb\xaa\x24\x37"
        && other
            == *b"\xb6\xb0\x7c\xb2\xce\xbf\x4a\xd8\x44\x68\x39\x1a\x54\x38\x24\xfc\xcf\xfe\x0e\x07"
}

const KEY: &[u8; 64] = b"0123456789abcdef0123456789ABCDEF0123456789ghijkl0123456789GHIJKL";

const FIRST: &[u8; 64] = b"The random stripes stand first, each as long as the key; the las";

const SECOND: &[u8; 64] = b"t stripe is what makes them hold it. The random stripes stand fi";

/// The last stripe, of a Python implementation that opens slots made by cryptsetup 2.6.1.
const LAST: &[u8; 64] =
    b"\xb6\xf4\x11\x74\xe4\xe8\x8b\x12\xf3\x3e\x60\x0b\x9e\x19\x76\x53\x14\x0c\x98\x98\x22\x92\x22\x07\x06\x8f\x53\x55\x71\xa4\xe3\x0c\xbc\x8a\xce\xfb\x70\xf0\x0b\x4c\x99\x7b\x79\xbb\x1c\x20\xd6\x11\x9e\x8c\xf9\x09\xa9\x91\xf9\x81\xce\x3b\x8d\xbe\xea\x89\xdf\x92";

/// Whether the stripes hold the key: split and merged at once, in turn, and by a running block.
fn split_and_merge() -> bool {
    let mut random = [0; 128];
    random[..64].copy_from_slice(FIRST);
    random[64..].copy_from_slice(SECOND);
    let mut stripes = [0; 192];
    split::<Sha256Fn>(&mut stripes, KEY, &random);
    let mut merged = [0; 64];
    merge::<Sha256Fn>(&mut merged, &stripes);
    &stripes[128..] == LAST.as_slice() && merged == *KEY
}

/// The same a stripe at a time.
fn split_and_merge_in_turn() -> bool {
    let mut splitter = Splitter::<Sha256Fn>::new(64);
    splitter.feed(FIRST);
    splitter.feed(SECOND);
    let mut last = [0; 64];
    splitter.finish(&mut last, KEY);
    let mut merger = Merger::<Sha256Fn>::new(64);
    merger.feed(FIRST);
    merger.feed(SECOND);
    let mut merged = [0; 64];
    merger.finish(&mut merged, &last);
    last == *LAST && merged == *KEY
}

/// The same by the hash's name, a running block beside the stripes.
fn split_by_name() -> bool {
    let mut block = [0; 64];
    HashName::Sha256.take_in(&mut block, FIRST);
    HashName::Sha256.take_in(&mut block, SECOND);
    xor_into(&mut block, KEY);
    block == *LAST
}

#[test]
fn generic_calls(rt: HostRuntime) {
    let are_right = derive() && split_and_merge() && split_and_merge_in_turn() && split_by_name();
    assert!(rt; are_right, "a call");
}
