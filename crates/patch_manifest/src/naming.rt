ghost use Rattle.std.specs.Prelude.{◌≡◌, IfOk};
ghost use Rattle.patch_manifest.specs.SourceName.{folder_of, file_name};

use cm_base::{Name, NoMemory};
use std::alloc::Global;

/// The name of a source file: the manifest's name up to and including its last `/`, followed by the path.
/// Nothing else is changed.
pub fn source_name(alloc: Global, manifest_name: &str, path: &str) -> Result<Name, NoMemory>
    ensures { IfOk result (λ name. name ≡ file_name manifest_name.now path.now) }
{
    let mut name = String::from_str(alloc, folder(manifest_name))?;
    name.push_str(path)?;
    Ok(Name::from_string(name))
}

fn folder(name: &str) -> &str
    ensures { result.now ≡ folder_of name.now }
{
    match name.rfind('/') {
        Some(last) => &name[..last + 1],
        None => "",
    }
}
