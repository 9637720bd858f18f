//! Pages: runs of rows in path order that trees share.
ghost use Rattle.std.specs.Prelude.{◌≡◌, ◌++◌, map, IfOk, OnOk};
ghost use Rattle.orc_tree.specs.Pages.{page_rows, rows_of, AreSized};

use orc_path::{Item, Path};
use orc_text::{Copied, Memory, Row};
use std::alloc::Global;
use std::sync::Arc;

/// The most rows of a page of a tree.
pub const PAGE_ROWS: usize = 8;

/// 1 to `PAGE_ROWS` rows of a tree in path order, each a path with its item.
#[derive(Debug, Drop)]
pub struct Page {
    pub rows: Row<(Path, Item)>,
}

impl Page {
    /// An equal page.
    pub fn copy(&self, alloc: Global) -> Result<Page, Memory>
        ensures { IfOk result (λ page. page ≡ self.now) }
    {
        Ok(Page {
            rows: Row::from_vec(copy_rows(alloc, self.rows.as_slice())?),
        })
    }
}

impl Copied for Page {
    fn copied(&self, alloc: Global) -> Result<Page, Memory> {
        self.copy(alloc)
    }
}

// Adds copies of rows at the end.
pub(crate) fn push_copies(
    alloc: Global,
    out: &mut Vec<(Path, Item)>,
    rows: &[(Path, Item)],
) -> Result<(), Memory>
    ensures { OnOk result (out.new.items ≡ out.old.items ++ rows.now) }
{
    out.reserve(rows.len())?;
    for row in rows {
        out.push((row.0.copy(alloc)?, row.1.copy(alloc)?))?;
    }
    Ok(())
}

// Copies of rows, with room for one row more that may be put there.
pub(crate) fn copy_rows(alloc: Global, rows: &[(Path, Item)]) -> Result<Vec<(Path, Item)>, Memory>
    ensures { IfOk result (λ copies. copies.items ≡ rows.now) }
{
    let mut copies = Vec::new(alloc);
    copies.reserve(rows.len().saturating_add(1))?;
    push_copies(alloc, &mut copies, rows)?;
    Ok(copies)
}

// Makes a page that has other holders a copy of its own, so that it may be changed. Where memory runs
// out, it is as it was.
pub(crate) fn own(alloc: Global, page: &mut Arc<Page>) -> Result<(), Memory>
    ensures { page_rows page.new ≡ page_rows page.old }
{
    if Arc::strong_count(page) != 1 {
        *page = Arc::new(alloc, page.copy(alloc)?)?;
    }
    Ok(())
}

// Adds other holders of pages at the end.
pub(crate) fn push_shared(out: &mut Vec<Arc<Page>>, pages: &[Arc<Page>]) -> Result<(), Memory>
    requires sized { AreSized pages.now }
    requires old { AreSized out.old.items }
    ensures rows { OnOk result (rows_of out.new.items ≡ rows_of out.old.items ++ rows_of pages.now) }
    ensures each { OnOk result
        (map page_rows out.new.items ≡ map page_rows out.old.items ++ map page_rows pages.now) }
    ensures sized { AreSized out.new.items }
{
    out.reserve(pages.len())?;
    for page in pages {
        out.push(Arc::try_clone(page)?)?;
    }
    Ok(())
}

// Another list of the same pages, with room for one more.
pub(crate) fn share_pages(alloc: Global, pages: &[Arc<Page>]) -> Result<Vec<Arc<Page>>, Memory>
    requires { AreSized pages.now }
    ensures rows { IfOk result (λ shared. rows_of shared.items ≡ rows_of pages.now) }
    ensures each { IfOk result (λ shared. map page_rows shared.items ≡ map page_rows pages.now) }
    ensures sized { IfOk result (λ shared. AreSized shared.items) }
{
    let mut shared = Vec::new(alloc);
    shared.reserve(pages.len().saturating_add(1))?;
    push_shared(&mut shared, pages)?;
    Ok(shared)
}
