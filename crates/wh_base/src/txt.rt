ghost use Rattle.std.specs.Prelude.{◌≡◌, ◌↔◌, ◌<◌, ◌≤◌, ◌^◌, IsTrue, IfOk, IsOk, Some, length, nat_eq, refl, vec_len, []};
ghost use Rattle.std.specs.Cmp;
ghost use Rattle.std.specs.Cmp.Rules.{hashing};
ghost use Rattle.std.specs.Cmp.Lexicographic.{pointwise, slice_cmp, nat_list_eq_equiv, nat_list_cmp_total, texts_ties, texts_po};
ghost use Rattle.std.specs.Hash as fed;
ghost use Rattle.std.specs.Ordering.{nat_cmp};
ghost use Rattle.std.proofs.Common.{rules};
ghost use Rattle.wh_base.specs.Lists.{same_text};

use std::alloc::{AllocError, Global};
use std::cmp::Ordering;
use std::hash::{Hash, Hasher};
use std::marker::Model;

/// How many bytes a text holds at the most: a place in it fits a `u32`.
const MOST: usize = 0xffff_ffff;

/// How many bytes a short text has at the most.
const SHORT: usize = 14;

/// Where the bytes of a text are: the first so many of an array, or in a block of their own.
#[derive(Debug, Drop)]
enum Bytes {
    Short(u8, [u8; SHORT]),
    Long(Box<Vec<u8>>),
}

/// A text of fewer than 2^32 bytes, which contracts see as the list of its bytes. A text of at most 14 bytes takes no
/// memory but its own 16 bytes.
#[derive(Debug, Drop)]
pub struct Txt {
    bytes: Bytes,
}

impl Model for Txt {
    ghost use Rattle.std.specs.Prelude.{List, ℕ};
    ghost use Rattle.wh_base.specs.Bytes.{bytes_in, IsWithinBounds};

    ghost Value = { List ℕ };

    ghost view = { λ t. bytes_in t.bytes };

    ghost invariant = { λ t. IsWithinBounds t.bytes };
}

impl Txt {
    /// No bytes. Takes no memory.
    pub fn new(_alloc: Global) -> Txt
        ensures { result ≡ [] }
    {
        Txt::short(&[])
    }

    /// These bytes, without a block of their own.
    fn short(bytes: &[u8]) -> Txt
        requires { length bytes.now ≤ SHORT }
        ensures { result ≡ bytes.now }
    {
        let mut kept = [0; SHORT];
        kept[..bytes.len()].copy_from_slice(bytes);
        Txt {
            bytes: Bytes::Short(bytes.len() as u8, kept),
        }
    }

    /// A copy of the bytes. An error says that memory ran out or that there are 2^32 bytes or more.
    pub fn from_slice(alloc: Global, bytes: &[u8]) -> Result<Txt, AllocError>
        ensures { IfOk result (λ t. t ≡ bytes.now) }
    {
        if bytes.len() <= SHORT {
            return Ok(Txt::short(bytes));
        }
        Txt::from_vec(Vec::from_slice(alloc, bytes)?)
    }

    /// The bytes of a `Vec`. An error, which says that memory ran out or that there are 2^32 bytes or more, drops them.
    pub fn from_vec(bytes: Vec<u8>) -> Result<Txt, AllocError>
        ensures ok { IfOk result (λ t. t ≡ bytes.items) }
        ensures few { IsOk result → vec_len bytes < 2 ^ 32 }
    {
        if bytes.len() <= SHORT {
            return Ok(Txt::short(bytes.as_slice()));
        }
        if bytes.len() > MOST {
            return Err(AllocError);
        }
        let alloc = *bytes.allocator();
        Ok(Txt {
            bytes: Bytes::Long(Box::new(alloc, bytes)?),
        })
    }

    /// The bytes as a slice.
    pub fn as_slice(&self) -> &[u8]
        ensures bytes { result.now ≡ self.now }
        ensures few { length result.now < 2 ^ 32 }
    {
        match &self.bytes {
            Bytes::Short(len, bytes) => &bytes[..usize::from(*len)],
            Bytes::Long(bytes) => bytes.as_slice(),
        }
    }

    /// How many bytes there are.
    pub fn len(&self) -> usize
        ensures count { result ≡ length self.now }
        ensures few { result < 2 ^ 32 }
    {
        self.as_slice().len()
    }

    /// Whether there are no bytes.
    pub fn is_empty(&self) -> bool
        ensures { IsTrue result ↔ (self.now ≡ []) }
    {
        self.as_slice().is_empty()
    }

    /// The same text.
    pub fn copy(&self, alloc: Global) -> Result<Txt, AllocError>
        ensures { IfOk result (λ t. t ≡ self.now) }
    {
        Txt::from_slice(alloc, self.as_slice())
    }

    /// Whether the text is these bytes.
    pub fn is(&self, other: &[u8]) -> bool
        ensures { IsTrue result ↔ (self.now ≡ other.now) }
    {
        self.as_slice() == other
    }

    /// Whether the two are the same text.
    pub fn same_as(&self, other: &Txt) -> bool
        ensures { result ≡ same_text self.now other.now }
    {
        self.as_slice() == other.as_slice()
    }
}

impl PartialEq for Txt {
    ghost eq = { pointwise nat_eq };

    ghost laws = { Cmp.partial_equiv_from_equiv nat_list_eq_equiv };

    fn eq(&self, other: &Txt) -> bool {
        self.as_slice() == other.as_slice()
    }
}

impl Eq for Txt {
    ghost laws = { nat_list_eq_equiv };
}

impl PartialOrd for Txt {
    ghost partial_cmp = { λ x y. Some (slice_cmp nat_cmp x y) };

    ghost laws = { texts_po };

    fn partial_cmp(&self, other: &Txt) -> Option<Ordering> {
        Some(self.cmp(other))
    }
}

impl Ord for Txt {
    ghost cmp = { slice_cmp nat_cmp };

    ghost total = { nat_list_cmp_total };

    ghost matches_partial_cmp = { λ x y. refl };

    ghost matches_eq = { texts_ties };

    fn cmp(&self, other: &Txt) -> Ordering {
        self.as_slice().cmp(other.as_slice())
    }
}

impl Hash for Txt {
    ghost hash_input = { fed.slice fed.u8 };

    ghost respects_eq = { Prim.search (hashing, rules) };

    fn hash<H: Hasher>(&self, state: &mut H) {
        self.as_slice().hash(state);
    }
}
