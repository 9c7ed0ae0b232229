//! The initial values and the restrictions of properties.
#![tactic(auto, unfolding(crate::specs::PropertyFaults::property_faults), using(ld_json::proofs::First::first_of_both))]

ghost use Rattle.std.specs.Prelude.{◌≡◌, [], Some, IfErr, IfOk, OnOk, option_and_then, option_map};
ghost use Rattle.ld_json.specs.declared.code.Code.TheVariants.{BadType};
ghost use Rattle.ld_json.specs.Fault.{SaysFirst};
ghost use Rattle.ld_model.specs.Counting.{each_numbered};
ghost use Rattle.ld_model.specs.Properties.{no_limits};
ghost use Rattle.ld_types.specs.Faults.{fault_if};
ghost use Rattle.ld_types.specs.PropertyFaults.{bounds_in, fits_as_initial, has_stray_length, is_one_of, is_stray_bound, is_unfit, listed_faults, property_faults, restriction_faults};
ghost use Rattle.ld_value.specs.Datum.{datum_of};
ghost use Rattle.ld_value.specs.Values.{restrictions_of, value_of};

use crate::literals::is_no_value;
use crate::types::ValueType;
use ld_base::{Items, NoMemory, PlainText};
use ld_json::{Code, ReadFault};
use ld_model::{Property, Restrictions};
use ld_value::fits::fits;
use ld_value::{Kind, Limits, Value, ValueFault, read_value, same_value};
use ld_walk::Spot;
use std::alloc::Global;

/// That the initial value and the restrictions of the property at the place have no fault.
pub(crate) fn check_property(
    alloc: Global,
    at: &Spot<'_>,
    property: &Property,
) -> Result<(), ReadFault>
    ensures faultless { OnOk result (property_faults at.now property.now ≡ []) }
    ensures first { IfErr result (SaysFirst (property_faults at.now property.now)) }
{
    if is_unfit(alloc, property)? {
        return Err(at.member("initial").fault(alloc, Code::BadType));
    }
    let texts = at.member("restrictions");
    check_restrictions(alloc, &texts, property.datatype, &property.restrictions)?;
    Ok(())
}

// ---- the initial value

/// Whether there is an initial value that does not fit.
fn is_unfit(alloc: Global, property: &Property) -> Result<bool, NoMemory>
    ensures { IfOk result (λ unfit. unfit ≡ is_unfit property.now property.now.initial) }
{
    let Some(text) = &property.initial else {
        return Ok(false);
    };
    match read_bound_text(alloc, property.datatype, text)? {
        Some(value) => Ok(!fits_as_initial(alloc, property, &value)?),
        None => Ok(true),
    }
}

/// Whether the value fits those restrictions that are values.
fn fits_as_initial(alloc: Global, property: &Property, value: &Value) -> Result<bool, NoMemory>
    ensures { IfOk result
        (λ fits. fits ≡ fits_as_initial property.now (Some (datum_of value.now))) }
{
    let Some(texts) = &property.restrictions else {
        return Ok(fits(property.datatype, &no_limits(alloc), value));
    };
    if !is_one_of(
        alloc,
        property.datatype,
        texts.enumeration.as_slice(),
        value,
    )? {
        return Ok(false);
    }
    let bounds = bounds_of(alloc, property.datatype, texts)?;
    Ok(fits(property.datatype, &bounds, value))
}

/// Whether the value is one of the texts, or there is none of them.
fn is_one_of(
    alloc: Global,
    kind: Kind,
    texts: &[PlainText],
    value: &Value,
) -> Result<bool, NoMemory>
    ensures { IfOk result (λ is. is ≡ is_one_of kind texts.now (datum_of value.now)) }
{
    for text in texts {
        if let Some(listed) = read_bound_text(alloc, kind, text)? {
            if same_value(value, &listed) {
                return Ok(true);
            }
        }
    }
    Ok(texts.is_empty())
}

/// Limits that restrict nothing.
fn no_limits(alloc: Global) -> Limits
    ensures { restrictions_of result ≡ no_limits }
{
    Limits {
        least: None,
        most: None,
        min_length: None,
        max_length: None,
        one_of: Items::new(alloc),
    }
}

/// The bounds and lengths of the restrictions, as far as they are values.
fn bounds_of(alloc: Global, kind: Kind, texts: &Restrictions) -> Result<Limits, NoMemory>
    ensures { IfOk result (λ limits. restrictions_of limits ≡ bounds_in kind texts.now) }
{
    Ok(Limits {
        least: read_bound(alloc, kind, &texts.min_inclusive)?,
        most: read_bound(alloc, kind, &texts.max_inclusive)?,
        min_length: texts.min_length,
        max_length: texts.max_length,
        one_of: Items::new(alloc),
    })
}

/// The value of the text, where there is one.
fn read_bound(
    alloc: Global,
    kind: Kind,
    text: &Option<PlainText>,
) -> Result<Option<Value>, NoMemory>
    ensures { IfOk result
        (λ value. option_map datum_of value ≡ option_and_then (value_of kind) text.now) }
{
    match text {
        Some(text) => read_bound_text(alloc, kind, text),
        None => Ok(None),
    }
}

/// The value of the text.
fn read_bound_text(alloc: Global, kind: Kind, text: &PlainText) -> Result<Option<Value>, NoMemory>
    ensures { IfOk result (λ value. option_map datum_of value ≡ value_of kind text.now) }
{
    match read_value(alloc, kind, text.as_str()) {
        Ok(value) => Ok(Some(value)),
        Err(ValueFault::BadValue) => Ok(None),
        Err(ValueFault::NoMemory) => Err(NoMemory),
    }
}

// ---- restrictions

/// That the restrictions at the place have no fault.
fn check_restrictions(
    alloc: Global,
    at: &Spot<'_>,
    kind: Kind,
    texts: &Option<Restrictions>,
) -> Result<(), ReadFault>
    ensures faultless { OnOk result (restriction_faults kind at.now texts.now ≡ []) }
    ensures first { IfErr result (SaysFirst (restriction_faults kind at.now texts.now)) }
{
    let Some(texts) = texts else {
        return Ok(());
    };
    if has_stray_length(kind, texts) {
        return Err(at.fault(alloc, Code::BadType));
    }
    check_bound(
        alloc,
        &at.member("minInclusive"),
        kind,
        &texts.min_inclusive,
    )?;
    check_bound(
        alloc,
        &at.member("maxInclusive"),
        kind,
        &texts.max_inclusive,
    )?;
    check_listed(alloc, at, kind, texts.enumeration.as_slice())?;
    Ok(())
}

/// Whether a length is restricted of what is no text.
fn has_stray_length(kind: Kind, texts: &Restrictions) -> bool
    ensures { result ≡ has_stray_length kind texts.now }
{
    !ValueType::of(kind).is(ValueType::Text)
        && (texts.min_length.is_some() || texts.max_length.is_some())
}

/// That the bound at the place is a value of the datatype, whose values have an order.
fn check_bound(
    alloc: Global,
    at: &Spot<'_>,
    kind: Kind,
    text: &Option<PlainText>,
) -> Result<(), ReadFault>
    ensures faultless { OnOk result (fault_if (is_stray_bound kind text.now) BadType at.now ≡ []) }
    ensures first { IfErr result
        (SaysFirst (fault_if (is_stray_bound kind text.now) BadType at.now)) }
{
    if is_stray_bound(alloc, kind, text)? {
        return Err(at.fault(alloc, Code::BadType));
    }
    Ok(())
}

/// Whether the bound is no value of the datatype, or one of values without order.
fn is_stray_bound(alloc: Global, kind: Kind, text: &Option<PlainText>) -> Result<bool, NoMemory>
    ensures { IfOk result (λ stray. stray ≡ is_stray_bound kind text.now) }
{
    let Some(text) = text else {
        return Ok(false);
    };
    if is_no_value(alloc, kind, text)? {
        return Ok(true);
    }
    Ok(!ValueType::of(kind).is_ordered())
}

/// That the texts of an enumeration are values of the datatype.
fn check_listed(
    alloc: Global,
    at: &Spot<'_>,
    kind: Kind,
    texts: &[PlainText],
) -> Result<(), ReadFault>
    ensures faultless { OnOk result (each_numbered (listed_faults kind at.now) texts.now ≡ []) }
    ensures first { IfErr result (SaysFirst (each_numbered (listed_faults kind at.now) texts.now)) }
{
    for (i, text) in texts.iter().enumerate() {
        if is_no_value(alloc, kind, text)? {
            let list = at.member("enumeration");
            return Err(list.item(i).fault(alloc, Code::BadType));
        }
    }
    Ok(())
}
