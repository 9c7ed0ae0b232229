//! The numbers of a unit's sites.
ghost use Rattle.std.specs.Prelude.{◌≡◌, ◌<◌, ◌≤◌, ℕ, length, nat_lt, slice_get, Contains, Some, option_map};
ghost use Rattle.ld_base.specs.Maybe.{provided};
ghost use Rattle.ld_names.specs.declared.rule.Rule.{Rule};
ghost use Rattle.ld_names.specs.Rules.{Site as SpecSite, kind_of, rules_of, sites_of};
ghost use Rattle.ld_names.specs.SiteNumbers.{numbered_site, site_count, site_number};
ghost use Rattle.ld_rules.specs.SiteView.{site_of};
ghost use Rattle.ld_settling.specs.RunLinking.{IsNewSite, IsNewcomer};
ghost use Rattle.ld_settling.specs.SiteParts.{IsAmong, placed_site, places_taken};

use ld_base::{PersonNo, RuleNo};
use ld_model::Owner;
use ld_names::RuleKind;
use ld_roles::SEATS;
use ld_rules::{PreparedUnit, Site};

/// Numbers of sites in a row: those from one on and below another.
#[derive(Clone, Copy)]
pub(crate) struct Numbers {
    pub(crate) from: u32,
    pub(crate) below: u32,
}

/// The numbers of a unit's sites, for runs with `SEATS` seats. Each rule has a number for each
/// seat, and its sites have the first of them; nothing else computes with these numbers.
/// (docs/DECISIONS.md, "A run has seats")
#[derive(Drop)]
pub(crate) struct SiteNumbers<'a> {
    pub(crate) unit: &'a PreparedUnit,
}

impl<'a> SiteNumbers<'a> {
    /// How many numbers there are.
    pub(crate) fn count(&self) -> u32
        ensures { result ≡ site_count self.now.unit.now SEATS }
    {
        self.rules() * SEATS as u32
    }

    /// How many rules there are.
    pub(crate) fn rules(&self) -> u32
        ensures count { result ≡ length (rules_of self.now.unit.now) }
        ensures few { result ≤ 600 }
    {
        self.unit.rules().len() as u32
    }

    /// The site with this number in a run with this many persons, if there is one.
    pub(crate) fn site(&self, number: u32, persons: u32) -> Option<Site>
        requires { persons ≤ SEATS }
        ensures { option_map site_of result
            ≡ numbered_site self.now.unit.now SEATS persons number }
    {
        let rule = number / SEATS as u32;
        let place = number % SEATS as u32;
        let Some(found) = self.unit.rules().get(rule as usize) else {
            return None;
        };
        site_at_place(found.kind(), persons, rule, place)
    }

    /// The numbers of all sites of a rule, in a run with this many persons.
    pub(crate) fn of_rule(&self, rule: u32, persons: u32) -> Numbers
        requires within { rule < length (rules_of self.now.unit.now) }
        requires seats { persons ≤ SEATS }
        ensures range { result.below ≤ site_count self.now.unit.now SEATS }
        ensures all { (site : SpecSite) → Contains (sites_of self.now.unit.now persons) site
            → site.rule ≡ rule → IsAmong result (site_number self.now.unit.now SEATS site) }
    {
        let kind = self.kind(rule);
        let first = rule * SEATS as u32;
        Numbers {
            from: first,
            below: first + places_taken(kind, persons),
        }
    }

    /// The numbers of the sites of a rule that came with the persons from one on and below another.
    pub(crate) fn newcomers(&self, rule: u32, from: u32, below: u32) -> Numbers
        requires within { rule < length (rules_of self.now.unit.now) }
        requires order { from ≤ below }
        requires seats { below ≤ SEATS }
        ensures range { result.below ≤ site_count self.now.unit.now SEATS }
        ensures all { (site : SpecSite) → IsNewSite self.now.unit.now from below site
            → site.rule ≡ rule → IsAmong result (site_number self.now.unit.now SEATS site) }
        ensures only { (i : ℕ) → IsAmong result i → IsNewcomer self.now.unit.now from below i }
    {
        let kind = self.kind(rule);
        let first = rule * SEATS as u32;
        Numbers {
            from: first + places_taken(kind, from),
            below: first + places_taken(kind, below),
        }
    }

    /// The kind of the rule with this number.
    fn kind(&self, rule: u32) -> RuleKind
        requires { rule < length (rules_of self.now.unit.now) }
        ensures rule { (found : Rule) × (slice_get (rules_of self.now.unit.now) rule ≡ Some found)
            × (kind_of found ≡ result) }
        ensures few { rule < 600 }
    {
        self.unit.rules()[rule as usize].kind()
    }
}

/// The site at this place of the rule with this number and of this kind, if it is taken.
fn site_at_place(kind: RuleKind, persons: u32, rule: u32, place: u32) -> Option<Site>
    requires { persons ≤ SEATS }
    ensures { option_map site_of result
        ≡ provided (nat_lt place (places_taken persons kind)) (placed_site kind rule place) }
{
    if place >= places_taken(kind, persons) {
        return None;
    }
    Some(placed_site(kind, rule, place))
}

/// How many places of a rule of this kind have a site.
fn places_taken(kind: RuleKind, persons: u32) -> u32
    requires { persons ≤ SEATS }
    ensures taken { result ≡ places_taken persons kind }
    ensures few { result ≤ SEATS }
{
    match kind {
        RuleKind::Person => persons,
        RuleKind::Run => 1,
    }
}

/// The site at this place of the rule with this number and of this kind.
fn placed_site(kind: RuleKind, rule: u32, place: u32) -> Site
    ensures { site_of result ≡ placed_site kind rule place }
{
    let owner = match kind {
        RuleKind::Person => Owner::Person(PersonNo(place)),
        RuleKind::Run => Owner::Run,
    };
    Site {
        rule: RuleNo(rule),
        owner,
    }
}
