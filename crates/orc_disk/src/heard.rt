//! What the reads of a disk gave, as a list that only clauses read. It takes no memory, and its
//! methods do nothing at run time.
ghost use Rattle.std.specs.Prelude.{◌≡◌, ◌≤◌, ℕ, List, [], ◌∷◌, ◌++◌, length};
ghost use Rattle.std.specs.Borrow.{ftrue};
ghost use Rattle.std.specs.Coded.{coded_list, coded×, coded_ℕ};
ghost use Rattle.orc_disk.specs.Rows.{read_piece};

use std::marker::{Model, PhantomData};

/// The reads of a disk so far, in order: each offset with the bytes that it gave.
#[derive(Drop)]
pub(crate) struct Heard {
    marker: PhantomData<u8>,
    pub ghost reads: { List (ℕ × List ℕ) } by { coded_list (coded× coded_ℕ (coded_list coded_ℕ)) },
}

impl Model for Heard {
    ghost also_owns = { λ _. ftrue };
}

// It owns nothing.
unsafe impl Send for Heard {}

unsafe impl Sync for Heard {}

impl Heard {
    /// No read so far.
    pub(crate) fn new() -> Heard
        ensures { result.reads ≡ [] }
    {
        Heard {
            marker: PhantomData,
        }
    }

    // One more, which gave these bytes at this offset.
    fn add(&mut self, _at: &u64, _bytes: &[u8])
        ensures { self.new.reads ≡ self.old.reads ++ (_at.now, _bytes.now) ∷ [] }
    {}

    /// One more with this buffer, which answered so many bytes. One without room gave nothing.
    pub(crate) fn note(&mut self, at: u64, buf: &[u8], count: usize)
        requires { count ≤ length buf.now }
        ensures { self.new.reads ≡ self.old.reads ++ read_piece at buf.now count }
    {
        if !buf.is_empty() {
            self.add(&at, &buf[..count]);
        }
    }
}
