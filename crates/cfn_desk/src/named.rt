//! Files kept in memory, each by its name.

ghost use Rattle.std.specs.Prelude.{◌≡◌, map, IfOk, option_copied};
ghost use Rattle.cfn_desk.specs.NamedFiles.{file_named, kept_files};

use std::alloc::{AllocError, Global};

/// A file that was given.
#[derive(Drop)]
pub(crate) struct NamedFile {
    pub(crate) name: Vec<u8>,
    pub(crate) bytes: Vec<u8>,
}

/// Copies of the files, in their order.
pub(crate) fn copy_files(
    alloc: Global,
    files: &[(&str, &[u8])],
) -> Result<Vec<NamedFile>, AllocError>
    ensures { IfOk result (λ kept.
        kept_files kept.items ≡ map (λ file. (file.0.now, file.1.now)) files.now) }
{
    let mut kept = Vec::with_capacity(alloc, files.len())?;
    for (name, bytes) in files {
        let name = Vec::from_slice(alloc, name.as_bytes())?;
        let bytes = Vec::from_slice(alloc, bytes)?;
        kept.push(NamedFile { name, bytes })?;
    }
    Ok(kept)
}

/// The bytes of the first file of that name.
pub(crate) fn find_file<'a>(files: &'a [NamedFile], name: &[u8]) -> Option<&'a [u8]>
    ensures { option_copied result ≡ file_named (kept_files files.now) name.now }
{
    for file in files {
        if file.name.as_slice() == name {
            return Some(file.bytes.as_slice());
        }
    }
    None
}
