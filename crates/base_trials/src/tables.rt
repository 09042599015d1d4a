use fib_table::Table;
use prefixes::{Addr, Out, Prefix, Route};
use std::alloc::AllocError;
use std::process::Abort;
use std::test::Fail;

fn add(rt: &impl Abort, table: &mut Table, route: Route) -> Result<(), AllocError> {
    assert!(rt; !table.has_key(&route));
    table.reserve(1)?;
    table.add(route);
    Ok(())
}

#[test]
fn a_longer_throw_wins_over_a_shorter_device_route(rt: HostRuntime) -> Result<(), Fail> {
    let all = Route {
        prefix: Prefix::new(Addr::V4(0), 0).ok_or("0.0.0.0/0")?,
        out: Out::Dev {
            link: 5,
            gateway: None,
        },
    };
    let home = Route {
        prefix: Prefix::new(Addr::V4(0xc0a8_0000), 16).ok_or("192.168.0.0/16")?,
        out: Out::Throw,
    };
    let mut table = Table::new(rt.alloc());
    add(&rt, &mut table, all)?;
    add(&rt, &mut table, home)?;
    assert_eq!(rt;
        table.lookup(Addr::V4(0xc0a8_0105), None),
        Some(home),
        "192.168.1.5"
    );
    Ok(())
}
