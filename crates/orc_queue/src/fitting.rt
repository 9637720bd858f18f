//! What two calls may not share.
ghost use Rattle.std.specs.Prelude.{◌≡◌, ◌↔◌, IsTrue, All, nat_eq};
ghost use Rattle.std.specs.List.{list_any};
ghost use Rattle.std.specs.Cmp.Lexicographic.{pointwise};
ghost use Rattle.orc_queue.specs.Fitting.{share_no_device, share_no_service, CoversNone};

use orc_expr::{Read, Target, covers};
use orc_text::Text;

/// Whether no device is in both.
pub(crate) fn share_no_device(one: &[u32], other: &[u32]) -> bool
    ensures { result ≡ share_no_device one.now other.now }
{
    one.iter().all(|device| !other.contains(device))
}

// Whether two ids are one. Ids that are counted up differ at the end, where they are compared first.
fn is_same(one: &Text, other: &Text) -> bool
    ensures { result ≡ pointwise nat_eq one.now other.now }
{
    if one.as_str().as_bytes().last() != other.as_str().as_bytes().last() {
        return false;
    }
    one == other
}

// Whether the service of this id is among these.
fn has_service(services: &[Text], id: &Text) -> bool
    ensures { result ≡ list_any (λ it. pointwise nat_eq it id.now) services.now }
{
    services.iter().any(|it| is_same(it, id))
}

/// Whether no service is in both.
pub(crate) fn share_no_service(one: &[Text], other: &[Text]) -> bool
    ensures { result ≡ share_no_service one.now other.now }
{
    one.iter().all(|id| !has_service(other, id))
}

// Whether the target covers none of the reads.
fn covers_none(target: &Target, reads: &[Read]) -> bool
    ensures { IsTrue result ↔ CoversNone reads.now target.now }
{
    for read in reads {
        if covers(target, read) {
            return false;
        }
    }
    true
}

/// Whether none of the targets covers one of the reads.
pub(crate) fn cover_none(targets: &[Target], reads: &[Read]) -> bool
    ensures { IsTrue result ↔ All (CoversNone reads.now) targets.now }
{
    for target in targets {
        if !covers_none(target, reads) {
            return false;
        }
    }
    true
}
