//! A checked unit, and graphs that no documents have.
use crate::calls::{checked, first_files};
use ld_cycles::{GREATEST, expanded_sizes, first_on_cycle};
use ld_names::Named;
use std::alloc::Global;
use std::test::Fail;

#[test]
fn a_checked_unit_gives_its_parts(rt: HostRuntime) -> Result<(), Fail> {
    let checked = checked(rt.alloc(), first_files(rt.alloc())?)?;
    assert_eq!(rt; checked.rules(), 3);
    assert_eq!(rt; checked.leaves(), 0);
    assert_eq!(rt; checked.names().id(Named::Unit).as_str(), "u1");
    assert_eq!(rt; checked.unit().activities.len(), 1);
    let (unit, names) = checked.into_parts();
    assert!(rt; names.number(&unit.identifier) == Some(Named::Unit));
    assert_eq!(rt; names.rules().len(), 3);
    Ok(())
}

/// The graph, where the nodes to which each node leads are written out.
fn graph(alloc: Global, lists: &[&[usize]]) -> Result<Vec<Vec<usize>>, Fail> {
    let mut edges = Vec::new(alloc);
    for list in lists {
        edges.push(Vec::from_slice(alloc, list)?)?;
    }
    Ok(edges)
}

#[test]
fn edges_to_no_node_are_on_no_cycle(rt: HostRuntime) -> Result<(), Fail> {
    let table: [(&[&[usize]], Option<usize>); 4] = [
        (&[], None),
        (&[&[1, 1], &[]], None),
        (&[&[2, 7], &[2]], None),
        (&[&[], &[3, 2], &[3, 1]], Some(1)),
    ];
    for (lists, expected) in table {
        let edges = graph(rt.alloc(), lists)?;
        let first = first_on_cycle(rt.alloc(), &edges)?;
        assert!(rt; first == expected, "{lists:?}");
    }
    Ok(())
}

/// What the nodes expand to.
fn sizes(alloc: Global, own: &[u64], edges: &[Vec<usize>]) -> Result<Vec<u64>, Fail> {
    if own.len() != edges.len() {
        return Err("not as many own sizes as nodes".into());
    }
    Ok(expanded_sizes(alloc, own, edges)?)
}

#[test]
fn great_sizes_stand_still(rt: HostRuntime) -> Result<(), Fail> {
    let table: [(&[u64], &[&[usize]], &[u64]); 3] = [
        (&[3, 0, 5], &[&[], &[], &[]], &[3, 0, 5]),
        (&[1, 1], &[&[1, 2, 9], &[2]], &[2, 1]),
        (
            &[u64::MAX, 999_999, 1],
            &[&[1], &[2, 2], &[]],
            &[GREATEST, GREATEST, 1],
        ),
    ];
    for (own, lists, expected) in table {
        let edges = graph(rt.alloc(), lists)?;
        let found = sizes(rt.alloc(), own, &edges)?;
        assert!(rt; found.as_slice() == expected, "{own:?}");
    }
    Ok(())
}
