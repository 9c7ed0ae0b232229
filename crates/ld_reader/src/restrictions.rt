//! What restricts the values of properties.
#![tactic(auto, unfolding(ld_formats::specs::Properties::left_out_restrictions, ld_formats::specs::Properties::restrictions), using(ld_json::proofs::First::says_more))]

ghost use Rattle.ld_formats.specs.Properties.{restrictions};

use crate::completions::ValueText;
use ld_base::Items;
use ld_json::{Node, ReadFault};
use ld_model::Restrictions;
use ld_shape::{ListBetween, Number, Reads, absent_at, default_at, optional_at};
use std::alloc::Global;

/// What restricts the values of a property.
pub struct RestrictionsShape;

impl Reads for RestrictionsShape {
    type Value = Restrictions;

    ghost shape = { restrictions };

    fn read(alloc: Global, node: &Node<'_, '_>) -> Result<Restrictions, ReadFault> {
        node.only(
            alloc,
            &[
                "minInclusive",
                "maxInclusive",
                "minLength",
                "maxLength",
                "enumeration",
                "pattern",
                "whiteSpace",
                "totalDigits",
                "fractionDigits",
            ],
        )?;
        let min_inclusive = optional_at::<ValueText>(alloc, node, "minInclusive")?;
        let max_inclusive = optional_at::<ValueText>(alloc, node, "maxInclusive")?;
        let min_length = optional_at::<Number<0, 4096>>(alloc, node, "minLength")?;
        let max_length = optional_at::<Number<0, 4096>>(alloc, node, "maxLength")?;
        let enumeration = default_at::<ListBetween<ValueText, 1, 100>>(
            alloc,
            node,
            "enumeration",
            Items::new(alloc),
        )?;
        absent_at(alloc, node, "pattern")?;
        absent_at(alloc, node, "whiteSpace")?;
        absent_at(alloc, node, "totalDigits")?;
        absent_at(alloc, node, "fractionDigits")?;
        Ok(Restrictions {
            min_inclusive,
            max_inclusive,
            min_length,
            max_length,
            enumeration,
        })
    }
}
