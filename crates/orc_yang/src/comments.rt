//! What each character does in a comment (RFC 7950 section 6.1.1).
ghost use Rattle.std.specs.Prelude.{◌≡◌, Some, IsErrOf};
ghost use Rattle.orc_yang.specs.Machine.{go, slashed, feed_line, feed_block, feed_star, unspoilt, Gap, Slashed};
ghost use Rattle.orc_yang.specs.inside.View.{view, spot, Mirrors};

use crate::YangFault;
use crate::character::{Character, Sort};
use crate::parser::{Mode, Parser};
use crate::steps::{bad, forbidden};

impl Parser {
    // The first slash of a comment.
    pub(crate) fn slash(&mut self, x: Character) -> Result<(), YangFault>
        ensures step { Mirrors (go (view self.old) (Slashed (spot self.old) x.at)) (view self.new) result }
        ensures memory { ¬ IsErrOf result YangFault.Memory }
    {
        self.mode = Mode::Slashed;
        self.opened = x.at;
        Ok(())
    }

    // After a slash that must begin a comment.
    pub(crate) fn slashed(&mut self, sort: Sort, x: Character) -> Result<(), YangFault>
        ensures step { Mirrors (slashed sort (spot self.old) self.old.opened (view self.old) x) (view self.new) result }
        ensures memory { ¬ IsErrOf result YangFault.Memory }
    {
        match sort {
            Sort::Slash => {
                self.mode = Mode::Line;
                Ok(())
            }
            Sort::Star => {
                self.mode = Mode::Block;
                self.pending = None;
                Ok(())
            }
            _ => bad(x),
        }
    }

    // In a comment to the end of the line.
    pub(crate) fn line(&mut self, sort: Sort, x: Character) -> Result<(), YangFault>
        ensures step { Mirrors (feed_line sort (spot self.old) (view self.old) x) (view self.new) result }
        ensures memory { ¬ IsErrOf result YangFault.Memory }
    {
        match sort {
            Sort::LineFeed => {
                self.mode = Mode::Gap;
                Ok(())
            }
            Sort::Forbidden => Err(forbidden(x)),
            _ => Ok(()),
        }
    }

    // In a comment in `/*` and `*/`.
    pub(crate) fn block(&mut self, sort: Sort, x: Character) -> Result<(), YangFault>
        ensures step { Mirrors
            (feed_block sort (spot self.old) self.old.opened self.old.pending (view self.old) x)
            (view self.new) result }
        ensures memory { ¬ IsErrOf result YangFault.Memory }
    {
        match sort {
            Sort::Star => {
                self.mode = Mode::BlockStar;
                Ok(())
            }
            Sort::Forbidden => {
                self.mode = Mode::Block;
                self.spoil(forbidden(x));
                Ok(())
            }
            _ => Ok(()),
        }
    }

    // In a comment in `/*` and `*/`, after a `*`.
    pub(crate) fn block_star(&mut self, sort: Sort, x: Character) -> Result<(), YangFault>
        ensures step { Mirrors
            (feed_star sort (spot self.old) self.old.opened self.old.pending (view self.old) x)
            (view self.new) result }
        ensures memory { IsErrOf result YangFault.Memory → self.old.pending ≡ Some YangFault.Memory }
    {
        match sort {
            Sort::Slash => self.end_comment(),
            Sort::Star => Ok(()),
            Sort::Forbidden => {
                self.mode = Mode::Block;
                self.spoil(forbidden(x));
                Ok(())
            }
            _ => {
                self.mode = Mode::Block;
                Ok(())
            }
        }
    }

    // The end of a comment: a fault in it counts now.
    pub(crate) fn end_comment(&mut self) -> Result<(), YangFault>
        ensures step { Mirrors
            (unspoilt self.old.pending (go (view self.old) (Gap (spot self.old))))
            (view self.new) result }
        ensures memory { IsErrOf result YangFault.Memory → self.old.pending ≡ Some YangFault.Memory }
    {
        match self.pending {
            Some(fault) => Err(fault),
            None => {
                self.mode = Mode::Gap;
                Ok(())
            }
        }
    }
}
