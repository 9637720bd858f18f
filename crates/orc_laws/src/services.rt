//! Laws of what living services hold, where they live, and which clash refuses a call.
ghost use Rattle.orc_laws.specs.Services.{ServiceLivesWhereItStands, UnnamedServiceStays, ServiceHoldsItsExpansion, LivingIsLastMade};

use orc_datastore::literal_is_expansion;

/// The entries of a list with a template are the living services: after a legal history such a
/// service lives exactly where its entry stands in the data.
pub fn service_lives_where_it_stands()
    ensures { ServiceLivesWhereItStands }
{}

/// Calls that don't name a service leave it as it is.
pub fn unnamed_service_stays()
    ensures { UnnamedServiceStays }
{}

/// A service that a call names holds from then on what its expansion on the data after the call
/// wrote on each device, or what its writes say, or is gone; whatever calls come later that don't
/// name it.
pub fn service_holds_its_expansion()
    ensures { ServiceHoldsItsExpansion }
{
    literal_is_expansion();
}

/// What a service holds that lives after a legal history is what the last call that named it made.
pub fn living_is_last_made()
    ensures { LivingIsLastMade }
{
    literal_is_expansion();
}
