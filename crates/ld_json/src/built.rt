//! The members of an object of serde_json.
#![tactic(auto, using(crate::proofs::Listed::list_any_map))]

ghost use Rattle.std.specs.Prelude.{◌≡◌, option_map, map};
ghost use Rattle.serde_json.specs.View.{members_view};
ghost use Rattle.ld_json.specs.Access.{only_name, all_listed};

use crate::names::is_listed;
use serde_json::{Map, Value};

/// The name of the only member.
pub(crate) fn only_name(members: &Map<String, Value>) -> Option<&str>
    ensures { option_map (λ name. name.now) result ≡ only_name (members_view members.now.entries) }
{
    let mut entries = members.iter();
    let (name, _) = entries.next()?;
    if let Some(_) = entries.next() {
        return None;
    }
    Some(name.as_str())
}

/// Whether each member has one of the names.
pub(crate) fn are_listed(members: &Map<String, Value>, names: &[&str]) -> bool
    ensures { result ≡ all_listed (map (λ name. name.now) names.now)
        (members_view members.now.entries) }
{
    for (name, _) in members {
        if !is_listed(name.as_str(), names) {
            return false;
        }
    }
    true
}
