// Notes what is wrong with a name.

ghost use Rattle.std.specs.Prelude.{◌≡◌, ◌++◌, IfOk, OnOk};
ghost use Rattle.rt_app.specs.Violation.{when};
ghost use Rattle.rt_resolve.specs.Scope.{or_unknown};
ghost use Rattle.rt_resolve.specs.Misnamed.{if_unknown};

use crate::lookup;
use rt_app::Violation;
use rt_ids::{NoMemory, Rule};

/// Appends a violation of this rule at this offset, where it is broken.
pub(crate) fn push_when(
    faults: &mut Vec<Violation>,
    broken: bool,
    rule: Rule,
    at: u32,
) -> Result<(), NoMemory>
    ensures { OnOk result (faults.new.items ≡ faults.old.items ++ when broken rule at) }
{
    if broken {
        faults.push(Violation { at, rule })?;
    }
    Ok(())
}

/// The number of what is found under the name at this offset; a fault and 255 where nothing is.
pub(crate) fn number_or_fault(
    faults: &mut Vec<Violation>,
    found: Option<u8>,
    at: u32,
) -> Result<u8, NoMemory>
    ensures number { IfOk result (λ n. n ≡ or_unknown found) }
    ensures faults { OnOk result (faults.new.items ≡ faults.old.items ++ if_unknown found at) }
{
    push_when(faults, found.is_none(), Rule::UnknownName, at)?;
    Ok(lookup::or_unknown(found))
}
