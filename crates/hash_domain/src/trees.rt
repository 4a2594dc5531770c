//! The hashes of trees, as the Internet Computer Interface Specification has them in its part "Certification".

ghost use Rattle.std.specs.Prelude.{◌≡◌, ◌++◌};
ghost use Rattle.sha2.specs.Sha256.{sha256};
ghost use Rattle.format_spec.specs.Hashes.{empty_string, fork_string, labeled_string, leaf_string};

use crate::hash32::Hash32;
use sha2::{Digest, Sha256};

/// The hash of the empty tree.
pub fn tree_empty() -> Hash32
    ensures { result ≡ sha256 empty_string }
{
    Hash32(Sha256::digest(b"\x11ic-hashtree-empty".as_slice()))
}

/// The hash of a fork over two trees of these hashes.
pub fn tree_fork(left: &Hash32, right: &Hash32) -> Hash32
    ensures { result ≡ sha256 (fork_string left.now right.now) }
{
    hash_of(b"\x10ic-hashtree-fork", left.bytes(), right.bytes())
}

/// The hash of a tree of this hash below a label.
pub fn tree_label(label: &[u8], below: &Hash32) -> Hash32
    ensures { result ≡ sha256 (labeled_string label.now below.now) }
{
    hash_of(b"\x13ic-hashtree-labeled", label, below.bytes())
}

/// The hash of a leaf.
pub fn tree_leaf(bytes: &[u8]) -> Hash32
    ensures { result ≡ sha256 (leaf_string bytes.now) }
{
    hash_of(b"\x10ic-hashtree-leaf", bytes, b"")
}

// The hash of a name and two parts behind it.
fn hash_of(name: &[u8], first: &[u8], second: &[u8]) -> Hash32
    ensures { result ≡ sha256 (name.now ++ (first.now ++ second.now)) }
{
    let mut hasher = Sha256::new();
    hasher.update(name);
    hasher.update(first);
    hasher.update(second);
    Hash32(hasher.finalize())
}
