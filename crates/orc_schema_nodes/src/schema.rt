//! Schemas.
ghost use Rattle.std.specs.Prelude.{◌≡◌, IfOk, false};
ghost use Rattle.orc_schema_nodes.specs.Schemas.{Ascends, plain_table};

use crate::line::SchemaLine;
use orc_text::{Copied, Memory, Row};
use std::alloc::Global;
use std::marker::Model;
use std::sync::Arc;

/// What may stand in a configuration: one line for each node, in the order of their names. A plain
/// schema has no line, and every configuration is valid for it. Copies of a schema share its lines.
pub struct Schema {
    // A plain schema has none.
    lines: Option<Arc<Row<SchemaLine>>>,
}

// Written out, so that a crate above lets a schema go by one call, and proves nothing of its lines.
impl Drop for Schema {
    fn drop(self) {
        let Schema { lines: _ } = self;
    }
}

impl Model for Schema {
    ghost use Rattle.orc_schema_nodes.specs.Schemas.{SchemaTable, Ascends};

    ghost Value = { SchemaTable };

    ghost use Rattle.orc_schema_nodes.specs.inside.Shared.{shared_table};

    ghost view = { λ schema. shared_table schema.lines };

    ghost invariant = { λ schema. Ascends (shared_table schema.lines).lines };
}

impl Schema {
    /// The schema of a device without modules. It takes no memory.
    pub fn plain(_alloc: Global) -> Schema
        ensures { result ≡ plain_table }
    {
        Schema { lines: None }
    }

    /// The schema of these lines, which stand in the order of their names, each of which stands once. It isn't
    /// plain, also without a line; whether it is sound (`IsSound`) nobody looks at.
    pub fn of_lines(alloc: Global, lines: Row<SchemaLine>) -> Result<Schema, Memory>
        requires { Ascends lines }
        ensures { IfOk result (λ schema. schema ≡ record { plain = false; lines = lines }) }
    {
        Ok(Schema {
            lines: Some(Arc::new(alloc, lines)?),
        })
    }

    /// Whether it is a plain one.
    pub fn is_plain(&self) -> bool
        ensures { result ≡ self.now.plain }
    {
        self.lines.is_none()
    }

    /// Its nodes, in the order of their names.
    pub fn lines(&self) -> &[SchemaLine]
        ensures lines { result.now ≡ self.now.lines }
        ensures order { Ascends self.now.lines }
    {
        match &self.lines {
            Some(lines) => lines.as_slice(),
            None => &[],
        }
    }

    /// An equal schema, which shares the lines. It costs a counter.
    pub fn copy(&self, _alloc: Global) -> Result<Schema, Memory>
        ensures { IfOk result (λ copy. copy ≡ self.now) }
    {
        match &self.lines {
            Some(lines) => Ok(Schema {
                lines: Some(Arc::try_clone(lines)?),
            }),
            None => Ok(Schema { lines: None }),
        }
    }
}

impl Copied for Schema {
    fn copied(&self, alloc: Global) -> Result<Schema, Memory> {
        self.copy(alloc)
    }
}
