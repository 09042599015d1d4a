ghost use Rattle.std.specs.Prelude.{◌≡◌};
ghost use Rattle.prefixes.specs.Route.{link_of, suits, fits, answer_of};

use crate::addr::Addr;
use crate::prefix::Prefix;

/// Where a route sends a packet. Unreachable and throw make a special route.
#[derive(Clone, Copy, Debug, PartialEq, Eq)]
pub enum Out {
    Dev { link: u16, gateway: Option<Addr> },
    Unreachable,
    Throw,
}

/// What a table says of a packet.
#[derive(Clone, Copy, Debug, PartialEq, Eq)]
pub enum Answer {
    Out { link: u16, gateway: Option<Addr> },
    Unreachable,
}

/// A route to the addresses of a prefix.
#[derive(Clone, Copy, Debug, PartialEq, Eq)]
pub struct Route {
    pub prefix: Prefix,
    pub out: Out,
}

fn suits(route_link: Option<u16>, bound: Option<u16>) -> bool
    ensures { result ≡ suits route_link bound }
{
    match (route_link, bound) {
        (Some(link), Some(bound)) => link == bound,
        (None, _) | (Some(_), None) => true,
    }
}

impl Out {
    /// The link that a device route goes out by.
    pub fn link(&self) -> Option<u16>
        ensures { result ≡ link_of self.now }
    {
        match *self {
            Out::Dev { link, .. } => Some(link),
            Out::Unreachable | Out::Throw => None,
        }
    }

    /// What the route answers as the best of its table.
    pub fn answer(&self) -> Option<Answer>
        ensures { result ≡ answer_of self.now }
    {
        match *self {
            Out::Dev { link, gateway } => Some(Answer::Out { link, gateway }),
            Out::Unreachable => Some(Answer::Unreachable),
            Out::Throw => None,
        }
    }
}

impl Route {
    /// Whether a packet to this destination that is bound to this link, or to none, may take the route.
    pub fn fits(&self, dest: Addr, bound: Option<u16>) -> bool
        ensures { result ≡ fits self.now dest bound }
    {
        self.prefix.covers(dest) && suits(self.out.link(), bound)
    }
}
