//! Whether a configuration is valid that was made from a valid one.
ghost use Rattle.std.specs.Prelude.{◌≡◌, None, false};
ghost use Rattle.orc_check.specs.Validity.{broken_of};
ghost use Rattle.orc_check.specs.Answers.{AnswersBreach};
ghost use Rattle.orc_revalidate.specs.Changes.{DiffersInside};
ghost use Rattle.orc_revalidate.specs.inside.Led.{may_lose};

use crate::dear::is_dear;
use crate::led::may_lose;
use crate::looks::least_looked;
use orc_check::{CheckFault, least_breach_is_least, valid};
use orc_expr::Target;
use orc_schema_nodes::Schema;
use orc_tree::Tree;
use std::alloc::Global;

// What `valid` answers of the new tree, where no instance to which a leafref leads may have gone.
fn look(
    alloc: Global,
    schema: &Schema,
    old: &Tree,
    new: &Tree,
    targets: &[Target],
) -> Result<(), CheckFault>
    requires typed { schema.now.plain ≡ false }
    requires valid { broken_of schema.now old.now ≡ None }
    requires changed { DiffersInside targets.now old.now new.now }
    requires kept { may_lose schema.now old.now new.now targets.now ≡ false }
    ensures { AnswersBreach (broken_of schema.now new.now) result }
{
    let _lines = schema.lines();
    let _chapters = new.chapters();
    least_breach_is_least();
    let best = least_looked(alloc, schema, old, new, targets)?;
    best.answer(alloc)
}

/// What `valid` answers of the new tree, where the old one is valid and all changes between the two lie
/// inside the targets.
///
/// It looks at what the change can break: each row inside a target that came, or has another text, as `valid`
/// looks at it; what may be missing below such a row that is an entry; and, where a row came or went, whether
/// a mandatory leaf is missing there, or how many entries its list has. That costs a search in both trees for
/// each row inside a target, and for each that came or went some more; the entries of a list are counted where
/// their number has a bound and one came or went, which costs a look at them and at what is below.
///
/// Where an instance to which a leafref elsewhere leads may have gone, it calls `valid`, and costs as much; and
/// so where a leafref came whose target is not the one key of a list, since `valid` lists the instances of such
/// targets once, and where thousands of rows stand inside the targets.
pub fn revalidate(
    alloc: Global,
    schema: &Schema,
    old: &Tree,
    new: &Tree,
    targets: &[Target],
) -> Result<(), CheckFault>
    requires valid { broken_of schema.now old.now ≡ None }
    requires changed { DiffersInside targets.now old.now new.now }
    ensures { AnswersBreach (broken_of schema.now new.now) result }
{
    if schema.is_plain() {
        return Ok(());
    }
    let dear = is_dear(alloc, schema, old, new, targets)?;
    if dear {
        return valid(alloc, schema, new);
    }
    let loses = may_lose(alloc, schema, old, new, targets)?;
    if loses {
        return valid(alloc, schema, new);
    }
    look(alloc, schema, old, new, targets)
}
