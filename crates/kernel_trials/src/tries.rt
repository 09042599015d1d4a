//! What a search in a trie reads.
use fib_search::lookup_counted;
use fib_trie::{NodeReader, TrieTable};
use prefixes::{Addr, Out, Prefix, Route};
use std::process::Abort;
use std::test::Fail;

const ONES4: u32 = u32::MAX;

const ONES6: u128 = u128::MAX;

fn by(prefix: Prefix, link: u16) -> Route {
    Route {
        prefix,
        out: Out::Dev {
            link,
            gateway: None,
        },
    }
}

fn put(rt: &impl Abort, table: &mut TrieTable, route: Route) -> Result<(), Fail> {
    assert!(rt; !table.has_key(&route));
    table.reserve(1)?;
    table.add(route);
    Ok(())
}

fn prefix4(len: u8) -> Option<Prefix> {
    let base = if len < 32 {
        ONES4 - (ONES4 >> len)
    } else {
        ONES4
    };
    Prefix::new(Addr::V4(base), len)
}

fn prefix6(len: u8) -> Option<Prefix> {
    let base = if len < 128 {
        ONES6 - (ONES6 >> len)
    } else {
        ONES6
    };
    Prefix::new(Addr::V6(base), len)
}

#[test]
fn an_empty_table_has_no_route(rt: HostRuntime) {
    let table = TrieTable::new(rt.alloc());
    let mut reader = NodeReader::new(&table);
    assert_eq!(rt; lookup_counted(&mut reader, Addr::V4(ONES4), None), None);
    assert_eq!(rt; reader.reads(), 1);
}

#[test]
fn the_prefixes_of_an_ipv4_address_cost_33_reads(rt: HostRuntime) -> Result<(), Fail> {
    let mut table = TrieTable::new(rt.alloc());
    for len in 0..33_u8 {
        put(&rt, &mut table, by(prefix4(len).ok_or("a prefix")?, 3))?;
    }
    let mut reader = NodeReader::new(&table);
    assert_eq!(rt; lookup_counted(&mut reader, Addr::V4(ONES4), Some(4)), None);
    assert_eq!(rt; reader.reads(), 33);
    let other = by(prefix4(0).ok_or("0.0.0.0/0")?, 4);
    put(&rt, &mut table, other)?;
    assert_eq!(rt; table.lookup(Addr::V4(ONES4), Some(4)), Some(other));
    Ok(())
}

#[test]
fn the_prefixes_of_an_ipv6_address_cost_129_reads(rt: HostRuntime) -> Result<(), Fail> {
    let mut table = TrieTable::new(rt.alloc());
    for len in 0..129_u8 {
        put(&rt, &mut table, by(prefix6(len).ok_or("a prefix")?, 3))?;
    }
    let mut reader = NodeReader::new(&table);
    assert_eq!(rt; lookup_counted(&mut reader, Addr::V6(ONES6), Some(4)), None);
    assert_eq!(rt; reader.reads(), 129);
    Ok(())
}
