use fwmark::Permission;
use networks::{Kind, LinkRoute, LinkRoutes, Links, Network, Networks};
use prefixes::{Addr, Out, Prefix, Route};
use std::alloc::Global;
use std::process::Abort;
use std::test::Fail;
use uid_ranges::{RankedList, Uid, UidRange};

fn uid(rt: &impl Abort, number: u32) -> Uid {
    Uid::new(number).expect(rt, "a UID")
}

// A physical network with the link 3 and a default route by it.
fn wifi(rt: &impl Abort, alloc: Global) -> Result<Network, Fail> {
    let route = Route {
        prefix: Prefix::new(Addr::V4(0), 0).expect(rt, "a prefix"),
        out: Out::Dev {
            link: 3,
            gateway: None,
        },
    };
    Ok(Network {
        id: 100,
        kind: Kind::Physical {
            permission: Permission::Nothing,
            apps: RankedList::empty(alloc),
        },
        interfaces: Links::empty(alloc).with(3)?,
        routes: LinkRoutes::empty(alloc).with(LinkRoute { link: 3, route })?,
    })
}

// A VPN of the UIDs from 10000 to 10009.
fn vpn(rt: &impl Abort, alloc: Global) -> Result<Network, Fail> {
    let apps = UidRange::new(uid(rt, 10000), uid(rt, 10009)).expect(rt, "a range");
    Ok(Network {
        id: 200,
        kind: Kind::Virtual {
            secure: false,
            users: RankedList::empty(alloc).with(&[apps], 7)?,
        },
        interfaces: Links::empty(alloc),
        routes: LinkRoutes::empty(alloc),
    })
}

fn three(rt: &impl Abort, alloc: Global) -> Result<Networks, Fail> {
    let networks = Networks::start(alloc)?;
    let networks = networks.put(wifi(rt, alloc)?)?;
    Ok(networks.put(vpn(rt, alloc)?)?)
}

fn id_of(network: Option<&Network>) -> Option<u16> {
    let network = network?;
    Some(network.id)
}

// With ample memory every call succeeds.
#[test]
fn networks_come(rt: HostRuntime) -> Result<(), Fail> {
    let networks = three(&rt, rt.alloc())?;
    assert_eq!(rt; id_of(networks.get(99)), Some(99));
    assert_eq!(rt; id_of(networks.network_of(3)), Some(100));
    Ok(())
}

#[test]
fn networks_go(rt: HostRuntime) -> Result<(), Fail> {
    let networks = three(&rt, rt.alloc())?.copy()?.drop_id(100)?;
    assert_eq!(rt; networks.len(), 2);
    assert_eq!(rt; id_of(networks.at(1)), Some(200));
    Ok(())
}
