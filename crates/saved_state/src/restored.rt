ghost use Rattle.std.specs.Prelude.{◌≡◌, [], IfOk};
ghost use Rattle.cm_base.specs.HostEnds.{IsLawful};
ghost use Rattle.cm_base.specs.Scripts.{AreSaved};
ghost use Rattle.saved_state.specs.Applied.{restored as with_values};

use crate::applied::apply;
use crate::written::parameters_of;
use cm_base::{HostEnds, NoMemory, SavedList};
use std::alloc::Global;

/// The parameters of a host, in declaration order, each with the value that it starts with: the first that is saved under
/// its name, else its `init`, held in its range. A run takes the parameters of a state file so.
pub fn restore(alloc: Global, host: &HostEnds, saved: &SavedList) -> Result<SavedList, NoMemory>
    requires { IsLawful host.now }
    ensures saved { IfOk result (λ restored. restored ≡ with_values host.now saved.now) }
    ensures in_range { IfOk result (AreSaved host.now) }
{
    let values = apply(alloc, host, saved)?;
    parameters_of(alloc, host.as_slice(), values.as_slice())
}

/// No saved parameters, as for a run without a state: each parameter starts with its `init`.
pub fn nothing_saved(alloc: Global, host: &HostEnds) -> SavedList
    requires { IsLawful host.now }
    ensures none { result ≡ [] }
    ensures in_range { AreSaved host.now result }
{
    let _host = host;
    SavedList::new(alloc)
}
