ghost use Rattle.std.specs.Prelude.{◌≡◌, ◌≤◌, IsTrue, IfOk, length};
ghost use Rattle.std.specs.Option.{SomeIff};
ghost use Rattle.std.specs.List.{AllByRecursion};
ghost use Rattle.std.specs.Cmp.{eq_by_cmp_equiv, partial_equiv_from_equiv, partial_order_from_total};
ghost use Rattle.std.specs.Cmp.Lexicographic.{nat_list_cmp_total, lists_total};
ghost use Rattle.std.specs.Ordering.{as_partial_cmp, eq_by_cmp};
ghost use Rattle.std.proofs.Common.{refl};
ghost use Rattle.format_spec.specs.Bytes.{IsBytes, path_cmp};
ghost use Rattle.state_spec.specs.State.{is_path, is_label, is_prefix, is_reserved as is_reserved_path};

use byte_codec::{Blob, NoMemory, is_same};
use format_spec::{MAX_LABEL, MAX_LABELS};
use std::alloc::Global;
use std::cmp::Ordering;
use std::marker::Model;

/// The path of an entry: 1 to 8 labels of 1 to 64 bytes each. Paths are ordered label by label in byte order,
/// and a path comes before its extensions.
#[derive(Debug, Drop)]
pub struct Path {
    labels: Vec<Blob>,
}

// Contracts see the list of its labels.
impl Model for Path {
    ghost use Rattle.std.specs.Prelude.{List, ℕ, IsTrue};
    ghost use Rattle.std.specs.List.{AllByRecursion};
    ghost use Rattle.format_spec.specs.Bytes.{IsBytes};
    ghost use Rattle.state_spec.specs.State.{is_path};

    ghost Value = { List (List ℕ) };

    ghost view = { λ path. path.labels.items };

    ghost invariant = { λ path. IsTrue (is_path path.labels.items) × AllByRecursion IsBytes path.labels.items };
}

/// Whether a label may have these bytes: 1 to 64.
pub fn is_good_label(bytes: &[u8]) -> bool
    ensures { result ≡ is_label bytes.now }
{
    0 < bytes.len() && bytes.len() <= MAX_LABEL
}

impl Path {
    /// The path of these labels. None where they are not 1 to 8 of 1 to 64 bytes each.
    pub fn new(labels: Vec<Blob>) -> Option<Path>
        ensures { SomeIff result (IsTrue (is_path labels.items)) labels.items }
    {
        if labels.is_empty() || labels.len() > MAX_LABELS {
            return None;
        }
        for label in &labels {
            if !is_good_label(label.bytes()) {
                return None;
            }
        }
        Some(Path { labels })
    }

    /// Its labels.
    pub fn labels(&self) -> &[Blob]
        ensures value { result.now ≡ self.now }
        ensures path { IsTrue (is_path self.now) }
        ensures bytes { AllByRecursion IsBytes self.now }
    {
        &self.labels
    }

    /// Whether it is the other path, or the other goes on behind it.
    pub fn begins(&self, other: &Path) -> bool
        ensures { result ≡ is_prefix self.now other.now }
    {
        let (labels, others) = (self.labels(), other.labels());
        labels.len() <= others.len() && order_labels(labels, &others[..labels.len()]).is_eq()
    }

    /// Whether the tree keeps its first label for itself: `time` and `canister`.
    pub fn is_reserved(&self) -> bool
        ensures { result ≡ is_reserved_path self.now }
    {
        match self.labels() {
            [] => false,
            [first, ..] => is_same(first.bytes(), b"time") || is_same(first.bytes(), b"canister"),
        }
    }

    /// The same path.
    pub fn copy(&self, alloc: Global) -> Result<Path, NoMemory>
        ensures { IfOk result (λ path. path ≡ self.now) }
    {
        let mut labels = Vec::with_capacity(alloc, self.labels.len())?;
        for label in &self.labels {
            labels.push(label.copy(alloc)?)?;
        }
        Ok(Path { labels })
    }
}

fn order_labels(a: &[Blob], b: &[Blob]) -> Ordering
    ensures { result ≡ path_cmp a.now b.now }
{
    for i in 0..a.len().min(b.len()) {
        let found = a[i].bytes().cmp(&b[i].bytes());
        if found.is_ne() {
            return found;
        }
    }
    a.len().cmp(&b.len())
}

impl PartialEq for Path {
    ghost eq = { eq_by_cmp path_cmp };

    ghost laws = { partial_equiv_from_equiv (eq_by_cmp_equiv (lists_total nat_list_cmp_total)) };

    fn eq(&self, other: &Path) -> bool {
        self.cmp(other).is_eq()
    }
}

impl Eq for Path {
    ghost laws = { eq_by_cmp_equiv (lists_total nat_list_cmp_total) };
}

impl PartialOrd for Path {
    ghost partial_cmp = { as_partial_cmp path_cmp };

    ghost laws = { partial_order_from_total (lists_total nat_list_cmp_total) };

    fn partial_cmp(&self, other: &Path) -> Option<Ordering> {
        Some(self.cmp(other))
    }
}

impl Ord for Path {
    ghost cmp = { path_cmp };

    ghost total = { lists_total nat_list_cmp_total };

    ghost matches_partial_cmp = { λ x y. refl };

    ghost matches_eq = { λ x y. refl };

    fn cmp(&self, other: &Path) -> Ordering {
        order_labels(&self.labels, &other.labels)
    }
}
