//! Keys.
ghost use Rattle.std.specs.Prelude.{◌≡◌, ℕ, List, [], ◌∷◌, ◌<◌, ◌≤◌, ◌++◌, ◌⊎◌, length, MatchResult, Some, refl, take};
ghost use Rattle.units.specs.Padded.{zeros_behind};
ghost use Rattle.std.specs.Cmp.Lexicographic.{slice_cmp, nat_list_cmp_total};
ghost use Rattle.std.specs.Ordering.{nat_cmp};
ghost use Rattle.units.specs.Keys.{same_key};
ghost use Rattle.units.specs.KeyEq.{same_key-equivalence, same_key-partial, key_order, key_ties, same_input};

use crate::{Fault, Reason};
use std::cmp::Ordering;
use std::hash::{Hash, Hasher};
use std::marker::Model;

/// A key of 1 to 64 bytes. It is a plain value, so a copy of it takes no memory. Keys are ordered by their bytes: a
/// key comes before each longer one that it begins.
#[derive(Clone, Copy)]
pub struct Key {
    bytes: [u8; 64],
    len: usize,
}

impl Model for Key {
    ghost use Rattle.std.specs.Prelude.{ℕ, List, ◌++◌, length, take};
    ghost use Rattle.std.proofs.lemmas.List.{length-take-le};
    ghost use Rattle.std.proofs.Common.{ap, ◌∙◌};
    ghost use Rattle.units.specs.Padded.{IsPadded, zeros_behind, padded_again};

    ghost Value = { List ℕ };

    ghost view = { λ k. take k.len k.bytes };

    ghost invariant = { λ k. IsPadded k.bytes k.len };

    ghost inverse = { λ b. record { bytes = b ++ zeros_behind (length b); len = length b } };

    ghost inverse_ok = { λ a h. ap (λ (p : List ℕ × ℕ). record { bytes = p.0; len = p.1 })
        (λ i. (padded_again a.bytes a.len h i, length-take-le a.len a.bytes h.whole i)) };
}

impl Key {
    /// Makes the key of these bytes. `BadRequest(Key)` comes if there are none, or more than 64.
    pub fn new(bytes: &[u8]) -> Result<Key, Fault>
        ensures { MatchResult result (λ key. (key ≡ bytes.now) × (1 ≤ length bytes.now)
            × (length bytes.now ≤ 64))
            (λ fault. (fault ≡ Fault.BadRequest Reason.Key)
            × ((length bytes.now ≡ 0) ⊎ (64 < length bytes.now))) }
    {
        if bytes.is_empty() || bytes.len() > 64 {
            return Err(Fault::BadRequest(Reason::Key));
        }
        let mut held = [0u8; 64];
        fill(&mut held, bytes);
        Ok(Key {
            bytes: held,
            len: bytes.len(),
        })
    }

    /// Gives its bytes.
    pub fn as_bytes(&self) -> &[u8]
        ensures same { result.now ≡ self.now }
        ensures least { 1 ≤ length result.now }
        ensures most { length result.now ≤ 64 }
    {
        &self.bytes[..self.len]
    }
}

impl PartialEq for Key {
    ghost eq = { same_key };

    ghost laws = { same_key-partial };

    fn eq(&self, other: &Key) -> bool {
        is_same(self.as_bytes(), other.as_bytes())
    }
}

impl Eq for Key {
    ghost laws = { same_key-equivalence };
}

impl PartialOrd for Key {
    ghost partial_cmp = { λ x y. Some (slice_cmp nat_cmp x y) };

    ghost laws = { key_order };

    fn partial_cmp(&self, other: &Key) -> Option<Ordering> {
        Some(self.cmp(other))
    }
}

impl Ord for Key {
    ghost cmp = { slice_cmp nat_cmp };

    ghost total = { nat_list_cmp_total };

    ghost matches_partial_cmp = { λ x y. refl };

    ghost matches_eq = { key_ties };

    fn cmp(&self, other: &Key) -> Ordering {
        self.as_bytes().cmp(other.as_bytes())
    }
}

impl Hash for Key {
    ghost hash_input = { λ b. b ∷ [] };

    ghost respects_eq = { same_input };

    fn hash<H: Hasher>(&self, state: &mut H) {
        state.write(self.as_bytes());
    }
}

// Puts the bytes at the front of a row of zeros.
fn fill(row: &mut [u8], bytes: &[u8])
    requires zeros { row.old ≡ zeros_behind 0 }
    requires short { length bytes.now ≤ 64 }
    ensures { row.new ≡ bytes.now ++ zeros_behind (length bytes.now) }
{
    row[..bytes.len()].copy_from_slice(bytes);
}

fn is_same(a: &[u8], b: &[u8]) -> bool
    ensures { result ≡ same_key a.now b.now }
{
    a == b
}
