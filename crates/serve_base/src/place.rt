//! Where the status file is.

use pool_base::NoMemory;
use std::alloc::Global;
use std::env;
use std::rt::Env;

/// The path of the status file: `pool_status` in the first folder of `$STATE_DIRECTORY`, or else
/// the configuration's path with `.status` at its end.
pub fn place_of<R: Env + AllocGlobal>(rt: &R, config: &str) -> Result<String, NoMemory> {
    match env::var(rt, "STATE_DIRECTORY") {
        Ok(folders) => in_folders(rt.alloc(), folders.as_str(), config),
        Err(_) => beside(rt.alloc(), config),
    }
}

fn in_folders(alloc: Global, folders: &str, config: &str) -> Result<String, NoMemory> {
    let folder = first_of(folders);
    if folder.is_empty() {
        return beside(alloc, config);
    }
    Ok(format!(in alloc; "{folder}/pool_status")?)
}

fn beside(alloc: Global, config: &str) -> Result<String, NoMemory> {
    Ok(format!(in alloc; "{config}.status")?)
}

/// The first of several folders.
fn first_of(folders: &str) -> &str {
    match folders.split_once(':') {
        Some((first, _)) => first,
        None => folders,
    }
}
