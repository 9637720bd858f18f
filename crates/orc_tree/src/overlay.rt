//! The items of some chapters set in others.
ghost use Rattle.std.specs.Prelude.{◌≡◌, OnOk};
ghost use Rattle.orc_path.specs.Configurations.{insert_all};
ghost use Rattle.orc_tree.specs.Pages.{chapters_rows, chapters_map};
ghost use Rattle.orc_tree.specs.inside.Places.{AreChaptersInOrder, AreLaid};

use crate::chapter::Chapter;
use crate::chapter_insertion::put_in_chapters;
use crate::finger::Finger;
use crate::walk::Rows;
use orc_text::Memory;
use std::sync::Arc;

// Sets each of the rows of some chapters in others.
pub(crate) fn lay_chapters(
    chapters: &mut Vec<Arc<Chapter>>,
    top: &[Arc<Chapter>],
) -> Result<(), Memory>
    requires sorted { AreChaptersInOrder chapters.old.items }
    requires laid { AreLaid chapters.old.items }
    ensures set { OnOk result
        (chapters_map chapters.new.items ≡ insert_all (chapters_rows top.now) (chapters_map chapters.old.items)) }
    ensures sorted { OnOk result (AreChaptersInOrder chapters.new.items) }
    ensures laid { AreLaid chapters.new.items }
{
    let alloc = *chapters.allocator();
    let mut finger = Finger::new();
    for row in Rows::new(top) {
        put_in_chapters(
            chapters,
            &mut finger,
            Vec::new(alloc),
            row.0.copy(alloc)?,
            row.1.copy(alloc)?,
        )?;
    }
    Ok(())
}
