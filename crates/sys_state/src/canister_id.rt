ghost use Rattle.std.specs.Prelude.{◌≡◌, ◌≤◌, take, length as list_length};
ghost use Rattle.std.specs.Option.{SomeIff};
ghost use Rattle.state_spec.specs.Id.{IsId};
ghost use Rattle.std.specs.Cmp.{eq_by_cmp_equiv, partial_equiv_from_equiv, partial_order_from_total};
ghost use Rattle.std.specs.Cmp.Lexicographic.{nat_list_cmp_total};
ghost use Rattle.std.specs.Ordering.{as_partial_cmp};
ghost use Rattle.std.proofs.Common.{refl};
ghost use Rattle.format_spec.specs.Bytes.{IsBytes, bytes_cmp, same_bytes};

use format_spec::MAX_ID;
use std::cmp::Ordering;
use std::marker::Model;

/// The id of a canister: 1 to 29 bytes, in byte order.
#[derive(Debug, Drop)]
pub struct CanisterId {
    bytes: [u8; MAX_ID],
    length: usize,
}

// Contracts see the list of its bytes.
impl Model for CanisterId {
    ghost use Rattle.std.specs.Prelude.{◌≤◌, ℕ, List, take};

    ghost Value = { List ℕ };

    ghost view = { λ id. take id.length id.bytes };

    ghost invariant = { λ id. (1 ≤ id.length) × (id.length ≤ 29) };
}

impl CanisterId {
    /// The id of these bytes. None where they are not 1 to 29.
    pub fn new(bytes: &[u8]) -> Option<CanisterId>
        ensures { SomeIff result (IsId bytes.now) bytes.now }
    {
        if bytes.is_empty() || bytes.len() > MAX_ID {
            return None;
        }
        let mut kept = [0; MAX_ID];
        kept[..bytes.len()].copy_from_slice(bytes);
        Some(CanisterId {
            bytes: kept,
            length: bytes.len(),
        })
    }

    /// Its bytes.
    pub fn bytes(&self) -> &[u8]
        ensures value { result.now ≡ self.now }
        ensures id { IsId result.now }
        ensures bytes { IsBytes result.now }
    {
        front_of(&self.bytes, self.length)
    }

    /// The same id. It takes no memory.
    pub fn copy(&self) -> CanisterId
        ensures { result ≡ self.now }
    {
        CanisterId {
            bytes: self.bytes,
            length: self.length,
        }
    }
}

// The first so many bytes.
fn front_of(bytes: &[u8], length: usize) -> &[u8]
    requires { length ≤ list_length bytes.now }
    ensures value { result.now ≡ take length bytes.now }
    ensures bytes { IsBytes result.now }
{
    &bytes[..length]
}

impl PartialEq for CanisterId {
    ghost eq = { same_bytes };

    ghost laws = { partial_equiv_from_equiv (eq_by_cmp_equiv nat_list_cmp_total) };

    fn eq(&self, other: &CanisterId) -> bool {
        self.cmp(other).is_eq()
    }
}

impl Eq for CanisterId {
    ghost laws = { eq_by_cmp_equiv nat_list_cmp_total };
}

impl PartialOrd for CanisterId {
    ghost partial_cmp = { as_partial_cmp bytes_cmp };

    ghost laws = { partial_order_from_total nat_list_cmp_total };

    fn partial_cmp(&self, other: &CanisterId) -> Option<Ordering> {
        Some(self.cmp(other))
    }
}

impl Ord for CanisterId {
    ghost cmp = { bytes_cmp };

    ghost total = { nat_list_cmp_total };

    ghost matches_partial_cmp = { λ x y. refl };

    ghost matches_eq = { λ x y. refl };

    fn cmp(&self, other: &CanisterId) -> Ordering {
        self.bytes().cmp(&other.bytes())
    }
}
