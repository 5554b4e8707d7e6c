ghost use Rattle.std.specs.Prelude.{◌≡◌, IfOk};
ghost use Rattle.st_doc.specs.Patch.{action_named, action_of};

use crate::check::may_have_names;
use st_base::WantOfMemory;
use st_scan::Scanned;
use std::alloc::Global;

/// The kind of a patch, by its `action`.
#[derive(Clone, Copy, Debug)]
pub(crate) enum Action {
    AddKeys,
    RemoveKeys,
    AddServices,
    RemoveServices,
    Replace,
    Steps,
    AddNames,
    RemoveNames,
}

/// The action of this name, if this version has it.
pub(crate) fn action_of(
    alloc: Global,
    value: &Scanned<'_>,
    version: u8,
) -> Result<Option<Action>, WantOfMemory>
    ensures { IfOk result (λ action. action ≡ action_of version value.now) }
{
    let Some(action) = value.member("action") else {
        return Ok(None);
    };
    match action.text(alloc)? {
        Some(name) => Ok(action_named(name.as_str(), version)),
        None => Ok(None),
    }
}

fn action_named(name: &str, version: u8) -> Option<Action>
    ensures { result ≡ action_named version name.now }
{
    if name == "add-public-keys" {
        Some(Action::AddKeys)
    } else if name == "remove-public-keys" {
        Some(Action::RemoveKeys)
    } else if name == "add-services" {
        Some(Action::AddServices)
    } else if name == "remove-services" {
        Some(Action::RemoveServices)
    } else if name == "replace" {
        Some(Action::Replace)
    } else if name == "ietf-json-patch" {
        Some(Action::Steps)
    } else if name == "add-also-known-as" && may_have_names(version) {
        Some(Action::AddNames)
    } else if name == "remove-also-known-as" && may_have_names(version) {
        Some(Action::RemoveNames)
    } else {
        None
    }
}
