//! The bytes of a file, of a write or of a read.
ghost use Rattle.std.specs.Prelude.{◌≡◌, ◌↔◌, ◌≤◌, IfOk, IsTrue, List, drop, length, ℕ};
ghost use Rattle.std.specs.Cmp.Lexicographic.{nat_list_eq_equiv};
ghost use Rattle.posix_types.specs.SameNames.{same_bytes};
ghost use Rattle.std.specs.Cmp.{partial_equiv_from_equiv};

use std::alloc::AllocError;
use std::marker::Model;
use std::sync::Arc;

/// Bytes of a file, from one of those on that its copies share. They are made once: a copy, and what lies behind some of
/// them, take no memory. Contracts see the list of bytes.
#[derive(Debug, Drop)]
pub struct Data {
    shared: Arc<Vec<u8>>,
    from: usize,
}

impl Model for Data {
    ghost Value = { List ℕ };

    ghost view = { λ a. drop a.from a.shared.value.items };

    ghost invariant = { λ a. a.from ≤ length a.shared.value.items };
}

impl Data {
    /// These bytes, to be shared from here on. They are not copied.
    ///
    /// # Errors
    ///
    /// Out of memory, for the count of their owners.
    pub fn of(bytes: Vec<u8>) -> Result<Data, AllocError>
        ensures { IfOk result (λ made. made ≡ bytes.items) }
    {
        let shared = Arc::new(*bytes.allocator(), bytes)?;
        Ok(Data { shared, from: 0 })
    }

    /// The bytes, to be read.
    pub fn as_slice(&self) -> &[u8]
        ensures { result.now ≡ self.now }
    {
        &self.shared.as_slice()[self.from..]
    }

    /// How many bytes they are.
    pub fn len(&self) -> usize
        ensures { result ≡ length self.now }
    {
        self.as_slice().len()
    }

    /// The bytes behind so many, which are shared and not copied. It takes no memory.
    ///
    /// # Errors
    ///
    /// As a clone.
    pub fn behind(&self, count: usize) -> Result<Data, AllocError>
        requires { count ≤ length self.now }
        ensures { IfOk result (λ made. made ≡ drop count self.now) }
    {
        let shared = self.shared.clone()?;
        let from = self.from + count;
        Ok(Data { shared, from })
    }
}

// A copy shares the bytes: it takes no memory, and is refused only where they have 2^63 owners.
impl Clone for Data {
    ghost is_clone = { λ a b. b ≡ a };

    fn clone(&self) -> Result<Data, AllocError> {
        let shared = self.shared.clone()?;
        Ok(Data {
            shared,
            from: self.from,
        })
    }
}

impl PartialEq for Data {
    ghost eq = { same_bytes };

    ghost laws = { partial_equiv_from_equiv nat_list_eq_equiv };

    fn eq(&self, other: &Data) -> bool
        ensures value { result ≡ same_bytes self.now other.now }
        ensures exact { IsTrue result ↔ (self.now ≡ other.now) }
    {
        self.as_slice() == other.as_slice()
    }
}

impl Eq for Data {
    ghost laws = { nat_list_eq_equiv };
}
