ghost use Rattle.std.specs.Prelude.{◌≡◌, IfOk};
ghost use Rattle.kernel_model.specs.Switch.{twins};

use kernel_model::Request;
use prefixes::Family;
use rule_match::Rule;
use std::alloc::{AllocError, Global};

/// Each rule for IPv4 and then for IPv6.
pub(crate) fn twins(alloc: Global, rules: &[Rule]) -> Result<Vec<Request>, AllocError>
    ensures { IfOk result (λ requests. requests.items ≡ twins rules.now) }
{
    let mut requests = Vec::new(alloc);
    for rule in rules {
        requests.push(Request::Rule {
            family: Family::V4,
            rule: *rule,
        })?;
        requests.push(Request::Rule {
            family: Family::V6,
            rule: *rule,
        })?;
    }
    Ok(requests)
}
