//! Ranks, loops and what is printed of them.
#![tactic(auto)]

use crate::units::{deep, first, looped, whole};
use ld_base::{Items, RuleNo, Text};
use ld_rank::{Report, feeds, is_ranking, print_report, rank, rule_name};
use ld_rules::PreparedUnit;
use std::alloc::Global;
use std::test::Fail;

/// What is printed of the unit's report.
fn printed(alloc: Global, unit: &PreparedUnit) -> Result<Text, Fail> {
    let report = rank(alloc, unit)?;
    let mut out = Text::new(alloc);
    print_report(unit, &report, &mut out)?;
    Ok(out)
}

#[test]
fn ranked_units_are_printed(rt: HostRuntime) -> Result<(), Fail> {
    let out = printed(rt.alloc(), &first(rt.alloc())?)?;
    let wanted =
        "ranked u1 rules=3 depth=2 turns=64 never-30\n1 activity read\n1 opening a\n2 part rp\n";
    assert!(rt; out.as_str() == wanted);
    let out = printed(rt.alloc(), &deep(rt.alloc())?)?;
    assert!(rt;
        out.as_str()
            .starts_with("ranked u rules=7 depth=4 turns=3 open\n")
    );
    assert!(rt;
        out.as_str().ends_with("4 condition 1\n3 condition 2\n2 condition 3\n1 condition 4\n")
    );
    Ok(())
}

#[test]
fn rules_of_each_kind_are_ranked(rt: HostRuntime) -> Result<(), Fail> {
    let out = printed(rt.alloc(), &whole(rt.alloc())?)?;
    assert!(rt;
        out.as_str()
            == "ranked w rules=8 depth=7 turns=64 never-30\n1 activity read\n2 structure s\n1 opening a\n3 part rp\n4 act a\n5 play p\n6 unit w\n7 condition 1\n"
    );
    Ok(())
}

#[test]
fn loops_are_printed(rt: HostRuntime) -> Result<(), Fail> {
    let out = printed(rt.alloc(), &looped(rt.alloc())?)?;
    assert!(rt; out.as_str() == "loop u length=2\ncondition 1\ncondition 2\n");
    Ok(())
}

#[test]
fn rules_feed_others(rt: HostRuntime) -> Result<(), Fail> {
    let unit = looped(rt.alloc())?;
    assert!(rt; feeds(&unit, 0, 2) && feeds(&unit, 1, 2) && !feeds(&unit, 2, 0));
    assert!(rt; feeds(&unit, 3, 4) && feeds(&unit, 4, 3) && !feeds(&unit, 3, 3));
    Ok(())
}

#[test]
fn rankings_are_told_from_others(rt: HostRuntime) -> Result<(), Fail> {
    let unit = first(rt.alloc())?;
    let Report::Ranked(mut ranks) = rank(rt.alloc(), &unit)? else {
        return Err("a loop")?;
    };
    assert!(rt; is_ranking(&unit, &ranks));
    ranks.push(1)?;
    assert!(rt; !is_ranking(&unit, &ranks));
    assert!(rt; !is_ranking(&unit, &Items::new(rt.alloc())));
    Ok(())
}

#[test]
fn rules_have_names(rt: HostRuntime) -> Result<(), Fail> {
    let mut out = Text::new(rt.alloc());
    rule_name(&first(rt.alloc())?, RuleNo(2), &mut out)?;
    assert!(rt; out.as_str() == "part rp");
    Ok(())
}
