ghost use Rattle.std.specs.Prelude.{◌≡◌, ◌<◌, ◌≤◌, length, IfOk};
ghost use Rattle.ld_cascade.specs.Tidy.{Tidy, Bound, Covers};
ghost use Rattle.ld_cascade.specs.Wiring.{LinksFollow, Wiring};
ghost use Rattle.ld_cascade_tests.specs.Lamps.{lamps, lamps_of};
ghost use Rattle.ld_cascade_tests.specs.Settled.{AreSettled};

use crate::lamps::Lamps;
use ld_base::Steps;
use ld_cascade::restore::restore;
use ld_cascade::settle::settle;
use ld_cascade::{
    Links, Settled, Stop, begins_bound, begins_restorable, begins_tidy, settle_plainly,
    stays_bound, stays_restorable, stays_tidy,
};
use ld_graph::readers::Readers;
use std::alloc::Global;
use std::marker::Brand;
use std::sync::ledger::{Blank, Ledger};
use std::test::Fail;

/// 1,000 lamps are off, and settled. One site is to be looked at again, and does not fire: no other
/// site is judged.
#[test]
fn quiet_sites_are_not_judged(rt: HostRuntime) -> Result<(), Fail> {
    let alloc = rt.alloc();
    let mut row = Lamps::new(alloc, 1000)?;
    row.switch_off(999);
    let judged = judgements::<Brand>(alloc, &mut row, 500, Blank::new(1))?;
    assert!(rt; judged <= 3, "a site was judged {judged} times");
    assert!(rt; judged >= 1, "no site was judged");
    Ok(())
}

/// How often a site is judged when settled lamps are settled again, one of whose sites is dirty.
fn judgements<L: Ledger>(
    alloc: Global,
    row: &mut Lamps,
    site: u32,
    blank: Blank,
) -> Result<u32, Fail>
    requires name { blank.name ≡ L.name }
    requires parts { blank.parts ≡ L.parts }
    requires enough { 0 < L.parts }
    requires site { site < length row.old.lit.items }
    requires few { length row.old.lit.items ≤ 4000000 }
{
    let mut steps = Steps::<L>::new(blank);
    let mut links = link_lamps(alloc, row)?;
    let mut changed = Vec::new(alloc);
    let _first = settle(row, &mut links, 256, &mut changed, &mut steps)?;
    let before = row.judged();
    links.fresh(site);
    let _second = settle(row, &mut links, 256, &mut changed, &mut steps)?;
    Ok(row.judged().wrapping_sub(before))
}

/// 1,000 lamps are off, and settled. A slot is touched, so that its site is judged again; each site
/// has been asked for its reads once.
#[test]
fn reads_are_asked_once(rt: HostRuntime) -> Result<(), Fail> {
    let alloc = rt.alloc();
    let mut row = Lamps::new(alloc, 1000)?;
    row.switch_off(999);
    let judged = judgements_of_touched::<Brand>(alloc, &mut row, 500, Blank::new(1))?;
    assert!(rt; judged >= 1, "no site was judged");
    assert_eq!(rt; row.asked(), 1000);
    Ok(())
}

/// How often a site is judged when settled lamps are settled again, one of which was touched.
fn judgements_of_touched<L: Ledger>(
    alloc: Global,
    row: &mut Lamps,
    lamp: u32,
    blank: Blank,
) -> Result<u32, Fail>
    requires name { blank.name ≡ L.name }
    requires parts { blank.parts ≡ L.parts }
    requires enough { 0 < L.parts }
    requires lamp { lamp < length row.old.lit.items }
    requires few { length row.old.lit.items ≤ 4000000 }
{
    let mut steps = Steps::<L>::new(blank);
    let mut links = link_lamps(alloc, row)?;
    let mut changed = Vec::new(alloc);
    let _first = settle(row, &mut links, 256, &mut changed, &mut steps)?;
    let before = row.judged();
    links.touch(lamp);
    let _second = settle(row, &mut links, 256, &mut changed, &mut steps)?;
    Ok(row.judged().wrapping_sub(before))
}

/// Of five lamps the last is lit. Each sweep hands the light on to one lamp more, so five sweeps
/// fire one site each, and the sixth fires none.
#[test]
fn both_settlings_give_the_same(rt: HostRuntime) -> Result<(), Fail> {
    let alloc = rt.alloc();
    for turns in [0, 4, 5, 256] {
        let mut one = Lamps::new(alloc, 5)?;
        let mut other = Lamps::new(alloc, 5)?;
        let first = settle_lamps::<Brand>(alloc, &mut one, turns, Blank::new(1))?;
        let second = settle_lamps_plainly::<Brand>(alloc, &mut other, turns, Blank::new(1));
        let wanted = if turns < 5 {
            Err(Stop::TurnBudget)
        } else {
            Ok(Settled {
                turns: 5,
                fired: 5,
                rejected: 0,
                sent: 0,
            })
        };
        assert_eq!(rt; first, wanted, "within {turns} turns");
        assert_eq!(rt; second, wanted, "plainly, within {turns} turns");
        if turns >= 5 {
            assert_eq!(rt; one.lit.as_slice(), [true; 5].as_slice());
            assert_eq!(rt; one.marks.as_slice(), [true; 5].as_slice());
        }
        assert_eq!(rt;
            one.lit.as_slice(),
            other.lit.as_slice(),
            "within {turns} turns"
        );
        assert_eq!(rt;
            one.marks.as_slice(),
            other.marks.as_slice(),
            "within {turns} turns"
        );
    }
    Ok(())
}

/// Of five lamps the last is lit, and each firing hands the light on to the lamp before, the last
/// one to the first lamp itself. The list has a number before the settling, which stays.
#[test]
fn each_changed_slot_is_told(rt: HostRuntime) -> Result<(), Fail> {
    let alloc = rt.alloc();
    let mut row = Lamps::new(alloc, 5)?;
    let mut told = Vec::new(alloc);
    told.push(9)?;
    settle_and_tell::<Brand>(alloc, &mut row, &mut told, Blank::new(1))?;
    assert_eq!(rt; told.as_slice(), [9, 3, 2, 1, 0, 0].as_slice());
    Ok(())
}

/// Settles the lamps, each of whose sites is new, and appends what the settling tells.
fn settle_and_tell<L: Ledger>(
    alloc: Global,
    row: &mut Lamps,
    told: &mut Vec<u32>,
    blank: Blank,
) -> Result<(), Fail>
    requires name { blank.name ≡ L.name }
    requires parts { blank.parts ≡ L.parts }
    requires enough { 0 < L.parts }
    requires few { length row.old.lit.items ≤ 4000000 }
{
    let mut steps = Steps::<L>::new(blank);
    let mut links = link_lamps(alloc, row)?;
    let _settled = settle(row, &mut links, 256, told, &mut steps)?;
    Ok(())
}

/// Of settled lamps each is read by its own site, and before by none.
#[test]
fn readers_are_those_linked(rt: HostRuntime) -> Result<(), Fail> {
    let alloc = rt.alloc();
    let mut row = Lamps::new(alloc, 5)?;
    let (before, after) = count_readers::<Brand>(alloc, &mut row, 2, Blank::new(1))?;
    assert_eq!(rt; before, (0, 0));
    assert_eq!(rt; after, (1, 2));
    Ok(())
}

/// How many readers the slot has and the sum of their numbers, before the lamps are settled and
/// after it.
fn count_readers<L: Ledger>(
    alloc: Global,
    row: &mut Lamps,
    slot: u32,
    blank: Blank,
) -> Result<((u32, u32), (u32, u32)), Fail>
    requires name { blank.name ≡ L.name }
    requires parts { blank.parts ≡ L.parts }
    requires enough { 0 < L.parts }
    requires slot { slot < length row.old.lit.items }
    requires few { length row.old.lit.items ≤ 4000000 }
{
    let mut steps = Steps::<L>::new(blank);
    let mut links = link_lamps(alloc, row)?;
    let mut changed = Vec::new(alloc);
    let before = sum_of(links.readers(slot));
    let _settled = settle(row, &mut links, 256, &mut changed, &mut steps)?;
    Ok((before, sum_of(links.readers(slot))))
}

/// How many sites there are, and the sum of their numbers.
fn sum_of(sites: Readers<'_>) -> (u32, u32) {
    let mut count: u32 = 0;
    let mut sum: u32 = 0;
    for site in sites {
        count = count.wrapping_add(1);
        sum = sum.wrapping_add(site);
    }
    (count, sum)
}

/// Links for the lamps, each of whose sites is new.
fn link_lamps(alloc: Global, row: &Lamps) -> Result<Links, Fail>
    ensures tidy { IfOk result (λ l. Tidy lamps (lamps_of row.now) l) }
    ensures bound { IfOk result (λ l. Bound lamps (lamps_of row.now) l) }
    ensures covers { IfOk result (λ l. Covers lamps (lamps_of row.now) l) }
{
    let mut links = Links::new(alloc);
    let count = row.lit.len() as u32;
    links.grow(count, count)?;
    for site in 0..count {
        links.fresh(site);
    }
    begins_tidy(row);
    begins_bound(row);
    Ok(links)
}

/// Settles the lamps, each of whose sites is new.
fn settle_lamps<L: Ledger>(
    alloc: Global,
    row: &mut Lamps,
    turns: u32,
    blank: Blank,
) -> Result<Result<Settled, Stop>, Fail>
    requires name { blank.name ≡ L.name }
    requires parts { blank.parts ≡ L.parts }
    requires some { 0 < L.parts }
    requires few { length row.old.lit.items ≤ 4000000 }
    requires turns { turns ≤ 256 }
{
    let mut steps = Steps::<L>::new(blank);
    let mut links = link_lamps(alloc, row)?;
    let mut changed = Vec::new(alloc);
    Ok(settle(row, &mut links, turns, &mut changed, &mut steps))
}

/// Settles the lamps by plain sweeps.
fn settle_lamps_plainly<L: Ledger>(
    alloc: Global,
    lamps: &mut Lamps,
    turns: u32,
    blank: Blank,
) -> Result<Settled, Stop>
    requires name { blank.name ≡ L.name }
    requires parts { blank.parts ≡ L.parts }
    requires some { 0 < L.parts }
    requires few { length lamps.old.lit.items ≤ 4000000 }
    requires turns { turns ≤ 256 }
{
    let mut steps = Steps::<L>::new(blank);
    let count = lamps.lit.len() as u32;
    settle_plainly(alloc, lamps, count, turns, &mut steps)
}

/// Five lamps are settled, and the last is switched off. Two turns are too few to hand that on to
/// the first. The lamps are rolled back and their links restored, and then five turns do it. Of the
/// sites ten are judged until the lamps are settled, three until the refusal, and six by the last
/// settling: none is judged because of what was rolled back.
#[test]
fn refused_settling_is_taken_back(rt: HostRuntime) -> Result<(), Fail> {
    let alloc = rt.alloc();
    let mut row = Lamps::new(alloc, 5)?;
    let wanted = Settled {
        turns: 5,
        fired: 5,
        rejected: 0,
        sent: 0,
    };
    let second = settle_again::<Brand>(alloc, &mut row, Blank::new(1))?;
    assert_eq!(rt; second, Some(Ok(wanted)));
    assert_eq!(rt; row.lit.as_slice(), [false; 5].as_slice());
    assert_eq!(rt; row.marks.as_slice(), [false; 5].as_slice());
    assert_eq!(rt; row.judged(), 19);
    Ok(())
}

/// Settles the lamps, switches the last off within two turns, takes that back where it is refused,
/// and switches the last off again.
fn settle_again<L: Ledger>(
    alloc: Global,
    row: &mut Lamps,
    blank: Blank,
) -> Result<Option<Result<Settled, Stop>>, Fail>
    requires name { blank.name ≡ L.name }
    requires parts { blank.parts ≡ L.parts }
    requires enough { 0 < L.parts }
    requires some { 0 < length row.old.lit.items }
    requires few { length row.old.lit.items ≤ 4000000 }
{
    let mut steps = Steps::<L>::new(blank);
    let mut links = link_lamps(alloc, row)?;
    let mut changed = Vec::new(alloc);
    let _settled = settle(row, &mut links, 256, &mut changed, &mut steps)?;
    links.begin();
    let lit = row.lit.clone()?;
    let marks = row.marks.clone()?;
    let Err(_) = switch_last_off(row, &mut links, 2, &mut changed, &mut steps) else {
        return Ok(None);
    };
    row.take_back(lit, marks);
    make_right(row, &mut links, &mut steps);
    Ok(Some(switch_last_off(row, &mut links, 256, &mut changed, &mut steps)))
}

/// Makes the links those of the lamps, which were rolled back to where the links began.
fn make_right<L: Ledger>(row: &mut Lamps, links: &mut Links, steps: &mut Steps<L>)
    requires begun { (begun : Wiring) × AreSettled (lamps_of row.old) begun
        × LinksFollow begun links.old }
    ensures tidy { Tidy lamps (lamps_of row.new) links.new }
    ensures bound { Bound lamps (lamps_of row.new) links.new }
    ensures covers { Covers lamps (lamps_of row.new) links.new }
    ensures count { length row.new.lit.items ≡ length row.old.lit.items }
{
    begins_restorable(row);
    stays_restorable(row);
    restore(row, links, steps);
}

/// Switches the last lamp off, and settles.
fn switch_last_off<L: Ledger>(
    row: &mut Lamps,
    links: &mut Links,
    turns: u32,
    changed: &mut Vec<u32>,
    steps: &mut Steps<L>,
) -> Result<Settled, Stop>
    requires tidy { Tidy lamps (lamps_of row.old) links.old }
    requires bound { Bound lamps (lamps_of row.old) links.old }
    requires covers { Covers lamps (lamps_of row.old) links.old }
    requires some { 0 < length row.old.lit.items }
    requires few { length row.old.lit.items ≤ 4000000 }
    requires turns { turns ≤ 256 }
    ensures count { length row.new.lit.items ≡ length row.old.lit.items }
    ensures follows { LinksFollow links.old links.new }
{
    let last = row.lit.len() as u32 - 1;
    stays_tidy(row);
    stays_bound(row);
    row.switch_off(last);
    links.touch(last);
    settle(row, links, turns, changed, steps)
}
