ghost use Rattle.std.specs.Prelude.{◌≡◌, IfOk, IfErr};
ghost use Rattle.cm_base.specs.declared.cause.Cause.{Cause};
ghost use Rattle.json_value.specs.Value.{IsSomeText};
ghost use Rattle.patch_manifest.specs.Manifest.{IsManifest, HasFault, IsAnswer, refusal_of};

use crate::properties::{has_texts, has_wrong_path, id_of, is_version, sources_of};
use cm_base::{Cause, Fail, Name, Names, Place, Refused};
use json_value::value_of;
use std::alloc::Global;

/// What a patch's manifest says: the patch's identifier, and the paths of its source files in their order,
/// as they are written.
#[derive(Debug, Drop)]
pub struct Manifest {
    pub id: Name,
    pub sources: Names,
}

/// Reads a manifest: a JSON object (RFC 8259) in UTF-8 with the members
/// `CmajorVersion`, the integer 1; `ID`, a string that isn't empty; `source`, a string or an array of 1 to
/// 64 strings; and perhaps the strings `version` and `name`. Other members are not used, and of two members
/// of one name the last counts. A path of a source isn't empty, doesn't begin with `/` and doesn't hold the
/// byte 0.
///
/// # Errors
/// `Refused` where the manifest has a fault, with a cause of one of its faults, at line 0 and column 0 of
/// file 0. `NoMemory` where memory runs out.
pub fn read_manifest(alloc: Global, bytes: &[u8]) -> Result<Manifest, Fail>
    ensures manifest { IfOk result (λ m. IsManifest bytes.now m.id m.sources) }
    ensures faultless { IfOk result (λ m. (cause : Cause) → ¬ HasFault bytes.now cause) }
    ensures refused { IfErr result (IsAnswer bytes.now) }
    ensures memory { IfErr result (λ fail. fail ≡ Fail.NoMemory → IsSomeText bytes.now) }
{
    let Some(value) = value_of(alloc, bytes)? else {
        return Err(refused(alloc, Cause::ManifestSyntax));
    };
    if !value.is_object() {
        return Err(refused(alloc, Cause::ManifestObject));
    }
    if !is_version(&value) {
        return Err(refused(alloc, Cause::ManifestVersion));
    }
    if !has_texts(&value) {
        return Err(refused(alloc, Cause::ManifestText));
    }
    let Some(id) = id_of(&value) else {
        return Err(refused(alloc, Cause::ManifestId));
    };
    let Some(sources) = sources_of(alloc, &value)? else {
        return Err(refused(alloc, Cause::ManifestSource));
    };
    if has_wrong_path(&sources) {
        return Err(refused(alloc, Cause::ManifestPath));
    }
    Ok(Manifest {
        id: Name::from_str(alloc, id)?,
        sources,
    })
}

// The refusal for this cause. The manifest is file 0, and its faults have no line.
fn refused(alloc: Global, cause: Cause) -> Fail
    ensures { result ≡ refusal_of cause }
{
    Fail::Refused(Refused {
        cause,
        place: Place {
            file: 0,
            line: 0,
            column: 0,
        },
        cycle: Names::new(alloc),
    })
}
