//! Lists of chapters, which copies of a tree share until one of them changes.
ghost use Rattle.std.specs.Prelude.{◌≡◌, IfOk, OnOk, OnErr};
ghost use Rattle.orc_tree.specs.Pages.{list_chapters, listed, chapters_rows};
ghost use Rattle.orc_tree.specs.inside.Places.{AreChaptersInOrder, AreLaid};
ghost use Rattle.orc_tree.specs.inside.Puts.{AreGaps, put_with};
ghost use Rattle.orc_tree.specs.inside.Removal.{kept_of};

use crate::chapter::{Chapter, ChapterList, share_chapters};
use crate::chapter_insertion::put_in_chapters;
use crate::chapter_removal::remove_in_chapters;
use crate::finger::Finger;
use orc_path::{Item, Path};
use orc_text::Memory;
use std::alloc::Global;
use std::sync::Arc;

// The chapters of a list, where there is one.
pub(crate) fn chapters_in(list: &Option<Arc<ChapterList>>) -> &[Arc<Chapter>]
    ensures { result.now ≡ listed list.now }
{
    match list {
        Some(list) => list.chapters.as_slice(),
        None => &[],
    }
}

// The list of these chapters.
pub(crate) fn new_list(
    alloc: Global,
    chapters: Vec<Arc<Chapter>>,
) -> Result<Option<Arc<ChapterList>>, Memory>
    ensures { IfOk result (λ list. listed list ≡ chapters.items) }
{
    Ok(Some(Arc::new(alloc, ChapterList { chapters })?))
}

// Another holder of the list.
pub(crate) fn share_list(
    list: &Option<Arc<ChapterList>>,
) -> Result<Option<Arc<ChapterList>>, Memory>
    ensures { IfOk result (λ shared. listed shared ≡ listed list.now) }
{
    match list {
        Some(list) => Ok(Some(Arc::try_clone(list)?)),
        None => Ok(None),
    }
}

// Whether nobody else holds the list.
fn is_own(list: &Option<Arc<ChapterList>>) -> bool {
    match list {
        Some(list) => Arc::strong_count(list) == 1,
        None => false,
    }
}

// Makes a list that has other holders, or is none, one of its own. Where memory runs out, it is as it
// was.
fn own_list(list: &mut Option<Arc<ChapterList>>, alloc: Global) -> Result<(), Memory>
    requires { AreLaid (listed list.old) }
    ensures rows { chapters_rows (listed list.new) ≡ chapters_rows (listed list.old) }
    ensures laid { AreLaid (listed list.new) }
{
    if is_own(list) {
        return Ok(());
    }
    let chapters = share_chapters(alloc, chapters_in(list))?;
    *list = new_list(alloc, chapters)?;
    Ok(())
}

// Puts entries and an item into the chapters of a list that has no other holder.
fn put_owned(
    list: &mut Arc<ChapterList>,
    finger: &mut Finger,
    missing: Vec<Path>,
    path: Path,
    item: Item,
) -> Result<(), Memory>
    requires sorted { AreChaptersInOrder (list_chapters list.old) }
    requires laid { AreLaid (list_chapters list.old) }
    requires gaps { AreGaps path (chapters_rows (list_chapters list.old)) missing.items }
    ensures ok { OnOk result
        (chapters_rows (list_chapters list.new)
        ≡ put_with missing.items path item (chapters_rows (list_chapters list.old))) }
    ensures err { OnErr result (chapters_rows (list_chapters list.new) ≡ chapters_rows (list_chapters list.old)) }
    ensures laid { AreLaid (list_chapters list.new) }
{
    match Arc::get_mut(list) {
        Some(list) => put_in_chapters(&mut list.chapters, finger, missing, path, item),
        // No list has another holder after `own_list`.
        None => Err(Memory),
    }
}

// Takes a path and what is below it out of the chapters of a list that has no other holder.
fn remove_owned(list: &mut Arc<ChapterList>, finger: &mut Finger, path: &Path) -> Result<(), Memory>
    requires sorted { AreChaptersInOrder (list_chapters list.old) }
    requires laid { AreLaid (list_chapters list.old) }
    ensures ok { OnOk result
        (chapters_rows (list_chapters list.new) ≡ kept_of path.now (chapters_rows (list_chapters list.old))) }
    ensures err { OnErr result (chapters_rows (list_chapters list.new) ≡ chapters_rows (list_chapters list.old)) }
    ensures laid { AreLaid (list_chapters list.new) }
{
    match Arc::get_mut(list) {
        Some(list) => remove_in_chapters(&mut list.chapters, finger, path),
        // No list has another holder after `own_list`.
        None => Err(Memory),
    }
}

// Puts entries and an item into the chapters of a list, which is copied where it has other holders.
// Where memory runs out, the rows are as they were.
pub(crate) fn put_shared(
    list: &mut Option<Arc<ChapterList>>,
    alloc: Global,
    finger: &mut Finger,
    missing: Vec<Path>,
    path: Path,
    item: Item,
) -> Result<(), Memory>
    requires sorted { AreChaptersInOrder (listed list.old) }
    requires laid { AreLaid (listed list.old) }
    requires gaps { AreGaps path (chapters_rows (listed list.old)) missing.items }
    ensures ok { OnOk result
        (chapters_rows (listed list.new) ≡ put_with missing.items path item (chapters_rows (listed list.old))) }
    ensures err { OnErr result (chapters_rows (listed list.new) ≡ chapters_rows (listed list.old)) }
    ensures laid { AreLaid (listed list.new) }
{
    own_list(list, alloc)?;
    match list {
        Some(list) => put_owned(list, finger, missing, path, item),
        None => Err(Memory),
    }
}

// Takes a path and what is below it out of the chapters of a list, which is copied where it has other
// holders. Where memory runs out, the rows are as they were.
pub(crate) fn remove_shared(
    list: &mut Option<Arc<ChapterList>>,
    alloc: Global,
    finger: &mut Finger,
    path: &Path,
) -> Result<(), Memory>
    requires sorted { AreChaptersInOrder (listed list.old) }
    requires laid { AreLaid (listed list.old) }
    ensures ok { OnOk result (chapters_rows (listed list.new) ≡ kept_of path.now (chapters_rows (listed list.old))) }
    ensures err { OnErr result (chapters_rows (listed list.new) ≡ chapters_rows (listed list.old)) }
    ensures laid { AreLaid (listed list.new) }
{
    own_list(list, alloc)?;
    match list {
        Some(list) => remove_owned(list, finger, path),
        None => Err(Memory),
    }
}
