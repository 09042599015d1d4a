ghost use Rattle.std.specs.Prelude.{◌≡◌, ◌≢◌, ◌<◌, ◌^◌, ◌↔◌, IsNone, IfSome};
ghost use Rattle.std.specs.Bool.{OnFalse};
ghost use Rattle.std.specs.Option.{ForSome};
ghost use Rattle.prefixes.specs.Addr.{IsAddr, family_of};

use prefixes::{Addr, Family};
use uid_ranges::Uid;

/// The link `lo`, by which the packets come that the device made.
pub const LOOPBACK: u16 = 1;

/// A packet that the device made, or one that came by another link and is passed on.
#[derive(Clone, Copy, Debug, PartialEq, Eq)]
pub struct Packet {
    pub uid: Uid,
    pub mark: u32,
    pub dest: Addr,
    pub incoming: u16,
    pub outgoing: Option<u16>,
    pub ghost mark_fits: { mark < 2 ^ 32 },
    pub ghost dest_fits: { IsAddr dest },
    pub ghost incoming_fits: { incoming < 2 ^ 16 },
    pub ghost outgoing_fits: { ForSome outgoing (λ link. link < 2 ^ 16) },
    pub ghost no_user_passed: { incoming ≢ 1 → uid.number ≡ 0 },
    pub ghost no_mark_passed: { incoming ≢ 1 → mark ≡ 0 },
    pub ghost not_bound_passed: { incoming ≢ 1 → IsNone outgoing },
}

impl Packet {
    ghost use Rattle.rule_match.specs.Packet.{IsMade, IsPassed, is_made};

    /// A packet of this user, made on the device and bound to this link or to none.
    pub fn made(uid: Uid, mark: u32, dest: Addr, bound: Option<u16>) -> Packet
        ensures { IsMade uid mark dest bound result }
    {
        Packet {
            uid,
            mark,
            dest,
            incoming: LOOPBACK,
            outgoing: bound,
        }
    }

    /// A packet that came by this link. No packet that is passed on comes by `lo`.
    pub fn passed(came: u16, dest: Addr) -> Option<Packet>
        ensures none { IsNone result ↔ (came ≡ 1) }
        ensures some { IfSome result (IsPassed came dest) }
    {
        if came == LOOPBACK {
            return None;
        }
        Some(Packet {
            uid: Uid { number: 0 },
            mark: 0,
            dest,
            incoming: came,
            outgoing: None,
        })
    }

    /// Whether the device made the packet.
    pub fn is_made(&self) -> bool
        ensures value { result ≡ is_made self.now }
        ensures passed { OnFalse result (IsPassed self.now.incoming self.now.dest self.now) }
    {
        self.incoming == LOOPBACK
    }

    pub fn uid(&self) -> Uid
        ensures { result ≡ self.now.uid }
    {
        self.uid
    }

    pub fn mark(&self) -> u32
        ensures { result ≡ self.now.mark }
    {
        self.mark
    }

    pub fn dest(&self) -> Addr
        ensures { result ≡ self.now.dest }
    {
        self.dest
    }

    /// The family whose rules the packet goes by.
    pub fn family(&self) -> Family
        ensures { result ≡ family_of self.now.dest }
    {
        self.dest.family()
    }

    /// The link by which the packet came.
    pub fn incoming(&self) -> u16
        ensures { result ≡ self.now.incoming }
    {
        self.incoming
    }

    /// The link that the packet is bound to.
    pub fn outgoing(&self) -> Option<u16>
        ensures { result ≡ self.now.outgoing }
    {
        self.outgoing
    }
}
