// Finding an index, for every kind of entry that tells its index.
ghost use Rattle.std.specs.Prelude.{◌≡◌, ℕ, map};
ghost use Rattle.index_sets.specs.Finding.{Found};

/// What tells an index.
pub trait Entry {
    /// the index that it tells
    ghost key: { Self → ℕ };

    fn index(&self) -> usize
        ensures { result ≡ key self.now };
}

/// A bare index tells itself.
impl Entry for u32 {
    ghost key = { λ x. x };

    fn index(&self) -> usize {
        *self as usize
    }
}

/// A place whose entry tells the index; none exactly if there is none.
pub fn find<E: Entry>(entries: &[E], index: usize) -> Option<usize>
    ensures { Found (map E.Entry.key entries.now) index result }
{
    entries.iter().position(|e| e.index() == index)
}
