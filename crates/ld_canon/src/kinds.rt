//! The datatypes of properties.
ghost use Rattle.std.specs.Prelude.{◌≡◌};
ghost use Rattle.std.specs.Str.{bytes_eq};
ghost use Rattle.ld_canon.specs.Canonical.{kinds_of};

use ld_base::Id;
use ld_model::Property;
use ld_value::Kind;

/// The datatype of the property of this identifier, if there is one.
pub(crate) fn kind_of(properties: &[Property], id: &Id) -> Option<Kind>
    ensures { result ≡ kinds_of properties.now id.now }
{
    let property = properties
        .iter()
        .find(|property| has_identifier(property, id))?;
    Some(property.datatype)
}

/// Whether the property has this identifier.
fn has_identifier(property: &Property, id: &Id) -> bool
    ensures { result ≡ bytes_eq property.now.identifier id.now }
{
    property.identifier.as_str() == id.as_str()
}
