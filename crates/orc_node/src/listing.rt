//! The operations of a link that are to fail.
ghost use Rattle.std.specs.Prelude.{◌≡◌};
ghost use Rattle.std.specs.List.{position};
ghost use Rattle.orc_device.specs.Listings.{is_listed_kind, listed_when, without_first};

use orc_device::{OpKind, When};

// Whether a listing is of this kind of operation.
fn is_listed_kind(listing: &(OpKind, When), kind: OpKind) -> bool
    ensures { result ≡ is_listed_kind kind listing.now }
{
    listing.0 == kind
}

/// Takes the first listing of this kind out, if there is one, and says when the operation fails.
pub(crate) fn take_listed(listed: &mut Vec<(OpKind, When)>, kind: OpKind) -> Option<When>
    ensures when { result ≡ listed_when kind listed.old.items }
    ensures left { listed.new.items ≡ without_first kind listed.old.items }
{
    match place_of(listed.as_slice(), kind) {
        Some(place) => Some(listed.remove(place).1),
        None => None,
    }
}

fn place_of(listed: &[(OpKind, When)], kind: OpKind) -> Option<usize>
    ensures { result ≡ position (is_listed_kind kind) listed.now }
{
    listed
        .iter()
        .position(|listing| is_listed_kind(listing, kind))
}
