ghost use Rattle.std.specs.Prelude.{◌≡◌};
ghost use Rattle.serde_json.specs.View.{view, members_view};
ghost use Rattle.json_value.specs.Form.{Answers};
ghost use Rattle.saved_state.specs.Version1.{version_1, saved_of, parameters_of, saved_from, is_one};

use cm_base::{FormFail, FormPart, FormRule, Name, NoMemory, Saved, SavedList};
use json_value::{refused, told, value_of};
use serde_json::{Map, Value};
use std::alloc::Global;

/// The parameters of a state file of version 1.
pub(crate) fn read_version_1(alloc: Global, bytes: &[u8]) -> Result<SavedList, FormFail>
    ensures { Answers result (version_1 bytes.now) }
{
    match value_of(alloc, bytes) {
        Ok(Some(value)) => saved_of(alloc, &value),
        Ok(None) => Err(refused(FormRule::Json, FormPart::Whole, 0)),
        Err(NoMemory) => Err(FormFail::NoMemory),
    }
}

fn is_one(value: &Value) -> bool
    ensures { result ≡ is_one (view value.now) }
{
    value.as_u64() == Some(1)
}

fn saved_of(alloc: Global, value: &Value) -> Result<SavedList, FormFail>
    ensures { Answers result (saved_of (view value.now)) }
{
    if !value.is_object() {
        return Err(refused(FormRule::Shape, FormPart::Whole, 0));
    }
    match value.get("version") {
        Some(version) if is_one(version) => parameters_of(alloc, value),
        Some(_) => Err(refused(FormRule::Version, FormPart::Whole, 0)),
        None => Err(refused(FormRule::Shape, FormPart::Whole, 0)),
    }
}

fn parameters_of(alloc: Global, value: &Value) -> Result<SavedList, FormFail>
    ensures { Answers result (parameters_of (view value.now)) }
{
    let Some(parameters) = value.get("parameters") else {
        return Err(refused(FormRule::Shape, FormPart::Whole, 0));
    };
    match parameters.as_object() {
        Some(members) => saved_from(alloc, members),
        None => Err(refused(FormRule::Shape, FormPart::Parameters, 0)),
    }
}

fn saved_from(alloc: Global, members: &Map<String, Value>) -> Result<SavedList, FormFail>
    ensures { Answers result (saved_from 0 (members_view members.now.entries)) }
{
    let mut saved = SavedList::new(alloc);
    for (name, value) in members {
        let Some(value) = value.as_i64() else {
            let index = told(saved.len());
            return Err(refused(FormRule::Scalar, FormPart::Parameters, index));
        };
        let name = Name::from_str(alloc, name.as_str())?;
        saved.push(Saved { name, value })?;
    }
    Ok(saved)
}
