//! Laws of services that live together, and of the clash that refuses a call.
ghost use Rattle.orc_plans.specs.Clashing.{ClashIsLeast, ServicesAgree};

/// The services that a history of calls, none of them refused, leaves alive write no unequal items
/// at one path of a device.
pub fn services_agree()
    ensures { ServicesAgree }
{}

/// The clash for which a call is refused is the least: there a service that the call names and another
/// one that lives after it would write unequal items, and no two do so on a lesser device, at a
/// lesser path of that device, by a service that the call names earlier, or with another one of a
/// lesser name there. Where no clash refuses the call there is none.
pub fn clash_is_least()
    ensures { ClashIsLeast }
{}
