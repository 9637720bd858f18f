//! Laws of reading and writing, each the contract of a function that does nothing.
ghost use Rattle.orc_json.specs.Laws.{JsonIsRead};
ghost use Rattle.orc_json.specs.TypedJson.{TypedHasJson};

/// The JSON value of a configuration is read as that configuration.
pub fn json_is_read()
    ensures { JsonIsRead }
{}

/// A configuration of items that a schema of modules lets stand where they do has a JSON value.
pub fn typed_has_json()
    ensures { TypedHasJson }
{}
