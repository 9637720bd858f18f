//! Laws over whole histories: of trees and data, and of services that came and went.
ghost use Rattle.orc_laws.specs.Histories.{OverlayIsOne, DeletedWithoutTrace, UnrefusedWithoutTrace, LegalWithoutTrace, OrderOfCreationIsFree, DataIsConfiguration, DataIsValid, DevicesStay};

/// Under such a history each device's tree is one configuration: at each path the item that some
/// living service writes, else the base's.
pub fn overlay_is_one()
    ensures { OverlayIsOne }
{}

/// Deleting a literal service leaves the state as if the service had never been created, whatever
/// calls that don't name it came between.
pub fn deleted_without_trace()
    ensures { DeletedWithoutTrace }
{}

/// Where no call of a history is refused, none is refused in the history without the creation and
/// the deletion of a service, where the calls between the two don't name it.
pub fn unrefused_without_trace()
    ensures { UnrefusedWithoutTrace }
{}

/// So a legal history is legal without the two calls, and leaves the same state.
pub fn legal_without_trace()
    ensures { LegalWithoutTrace }
{}

/// Each device's tree doesn't depend on the order in which the services that live now were created,
/// where its base is the same.
pub fn order_of_creation_is_free()
    ensures { OrderOfCreationIsFree }
{}

/// Where the actions of a history are ones that call blocks can give, the data after it is a
/// configuration.
pub fn data_is_configuration()
    ensures { DataIsConfiguration }
{}

/// Where the opening data is valid, the data after each history of calls, none of them refused, is.
pub fn data_is_valid()
    ensures { DataIsValid }
{}

/// No call changes what stands in the data's list of the devices.
pub fn devices_stay()
    ensures { DevicesStay }
{}
