use crate::{
    ChunkHasher, ChunkSum, Hash32, chunk_hash, file_hash, is_zeros, piece_hash, plain_hash,
    root_hash, sum_of, tree_empty, tree_fork, tree_label, tree_leaf,
};
use std::process::Abort;

const ZERO: Hash32 = Hash32([0; 32]);

// The values are those of another program; that of `abc` is an example of FIPS 180-4.
fn check(rt: &impl Abort, hash: &Hash32, want: &[u8]) {
    assert_eq!(rt; hash.bytes(), want);
}

#[test]
fn chunks_hash_as_in_another_program(rt: HostRuntime) {
    let abc =
        b"\xe3\x7a\x32\x8b\x11\x4e\xd6\x19\xdc\x1a\x4f\x88\x33\xb1\xcc\x8d\x31\xdd\x10\x2c\xe4\x5a\x8a\xac\xe4\x4a\xb4\xbc\x97\xfe\x1e\x7d";
    check(&rt, &chunk_hash(b"abc"), abc);
    let mut pieces = ChunkHasher::new();
    pieces.update(b"a");
    pieces.update(b"bc");
    check(&rt, &pieces.end(), abc);
    check(
        &rt,
        &chunk_hash(&[0; 4096]),
        b"\x17\xbb\x16\xd7\x03\xf4\xf5\x88\xec\xf3\xca\xfe\x21\xc2\x64\x8b\xe1\xc6\x7b\x05\x61\x7b\x62\x29\x61\x95\x92\x2f\x19\xf8\xb4\x4e",
    );
}

#[test]
fn a_chunk_of_zeros_has_a_sum_in_version_1_alone(rt: HostRuntime) {
    let mut chunk = [0; 4097];
    assert!(rt; is_zeros(&chunk));
    assert!(rt; is_zeros(&[]));
    assert!(rt; sum_of(2, &chunk).is_none());
    assert!(rt; sum_of(1, &chunk) == Some(chunk_hash(&chunk)));
    chunk[4096] = 128;
    assert!(rt; !is_zeros(&chunk));
    assert!(rt; sum_of(2, &chunk) == Some(chunk_hash(&chunk)));
}

#[test]
fn files_hash_as_in_another_program(rt: HostRuntime) {
    check(
        &rt,
        &file_hash(&[]),
        b"\x98\x13\x05\xd7\xc0\xb2\xac\xe0\xf5\x3f\xe8\x22\xf4\x07\x52\x78\xfa\x28\x51\x1e\x8c\x34\xe7\x0f\x37\xfd\x84\x25\xaf\x65\x9b\x36",
    );
    let sums = [
        ChunkSum {
            size: 1_048_576,
            offset: 0,
            hash: chunk_hash(b"abc"),
        },
        ChunkSum {
            size: 3,
            offset: 1_048_576,
            hash: ZERO,
        },
    ];
    check(
        &rt,
        &file_hash(&sums),
        b"\x60\x9d\x59\xac\x50\xa9\x54\xce\xb0\x67\xa6\x82\x03\x97\xee\x61\x29\x18\xb7\x09\xb0\x11\x64\xb4\x11\x13\xf3\x0f\xe0\x1d\x97\x8c",
    );
}

#[test]
fn texts_and_roots_hash_as_in_another_program(rt: HostRuntime) {
    check(
        &rt,
        &plain_hash(b"abc"),
        b"\xba\x78\x16\xbf\x8f\x01\xcf\xea\x41\x41\x40\xde\x5d\xae\x22\x23\xb0\x03\x61\xa3\x96\x17\x7a\x9c\xb4\x10\xff\x61\xf2\x00\x15\xad",
    );
    check(
        &rt,
        &piece_hash(b"abc"),
        b"\x8c\xf6\x85\x83\x83\x63\x19\xb6\x73\x38\xa8\x54\x1c\xc8\x8a\x4b\xa0\x3d\x81\x9e\x0c\x2c\x6d\x76\x89\x1b\xd1\x53\x25\x22\xef\xcb",
    );
    check(
        &rt,
        &root_hash(1, &[chunk_hash(b"abc"), ZERO]),
        b"\x53\xa8\x1d\xb0\xd2\xdb\xdc\xd7\x7a\xd5\xc0\x59\x2b\x8b\xc8\xd9\x34\xa5\xf1\x2f\xcc\x38\xa4\x03\x9b\x51\xd1\x1e\x5c\x61\x16\x45",
    );
}

#[test]
fn trees_hash_as_in_another_program(rt: HostRuntime) {
    let leaf = tree_leaf(b"hello");
    let label = tree_label(b"x", &leaf);
    check(
        &rt,
        &tree_empty(),
        b"\x4e\x3e\xd3\x5c\x4e\x2d\x1e\xe8\x99\x96\x48\x3f\xb6\x26\x0a\x64\xcf\xfb\x6c\x47\xdb\xab\x21\x6e\x79\x30\xe8\x2f\x81\x90\xd1\x20",
    );
    check(
        &rt,
        &leaf,
        b"\x99\xcf\x69\x44\x71\xb0\xe9\xc5\x4d\xb3\x61\x20\xf9\x14\xf1\x25\x37\xb3\xa7\x41\x7c\x30\x1e\x10\x85\x1f\x34\x1f\x4d\x5c\xa1\x4a",
    );
    check(
        &rt,
        &label,
        b"\x3b\x1f\x01\xd5\x75\x8c\xeb\x27\x55\x46\x47\x65\x73\x0f\x27\x87\xc2\xff\x0d\xf0\x03\xf8\x80\x89\xd3\x0b\xaa\xda\x4f\x91\x56\x87",
    );
    check(
        &rt,
        &tree_fork(&label, &tree_empty()),
        b"\x1b\x4f\xef\xf9\xbe\xf8\x13\x17\x88\xb0\xc9\xdc\x6d\xba\xd6\xe8\x1e\x52\x42\x49\xc8\x79\xe9\xf1\x0f\x71\xce\x37\x49\xf5\xa6\x38",
    );
}
