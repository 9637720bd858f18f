//! The lists whose entries are services.
ghost use Rattle.std.specs.Prelude.{◌≡◌, IfOk, is_some};
ghost use Rattle.std.specs.Option.{option_copied};
ghost use Rattle.orc_path.specs.Reading.{path_of};
ghost use Rattle.orc_services.specs.Services.{list_with};

use orc_path::{Path, PathFault};
use orc_template::Template;
use orc_text::{Memory, Text};
use std::alloc::Global;

/// A list of the data, whose last step has no keys, and the template of its entries.
pub struct ServiceList {
    pub list: Path,
    pub template: Template,
}

// Written out, so that a crate above lets lists go by one call each.
impl Drop for ServiceList {
    fn drop(self) {
        let ServiceList {
            list: _,
            template: _,
        } = self;
    }
}

/// The path that an id is the text of, where it is one.
pub fn path_of_id(alloc: Global, id: &Text) -> Result<Option<Path>, Memory>
    ensures { IfOk result (λ found. found ≡ path_of id.now) }
{
    match Path::parse(alloc, id.as_str()) {
        Ok(path) => Ok(Some(path)),
        Err(PathFault::BadPath { .. }) => Ok(None),
        Err(PathFault::Memory) => Err(Memory),
    }
}

/// Whether the path is that of an entry of one of these lists.
pub fn is_listed(lists: &[ServiceList], path: &Path) -> bool
    ensures { result ≡ is_some (list_with lists.now path.now) }
{
    list_with(lists, path).is_some()
}

/// The list that the path is an entry of, where it is one of these.
pub(crate) fn list_with<'a>(lists: &'a [ServiceList], path: &Path) -> Option<&'a ServiceList>
    ensures { option_copied result ≡ list_with lists.now path.now }
{
    lists.iter().find(|it| path.is_entry_of(&it.list))
}
