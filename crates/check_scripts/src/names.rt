//! Which scripts there are.

use std::collections::BTreeSet;
use std::rt::Files;
use std::{fs, io};

/// The name of the script that a file is of: the file's name where it is neither a script nor what one prints.
fn script_of(file: &str) -> &str {
    match file.rsplit_once('.') {
        Some((name, "script" | "out")) => name,
        _ => file,
    }
}

/// The names of all scripts of a folder, in order. A file of another kind counts as a script, which can't be read.
pub(crate) fn read_names<R>(rt: &R, folder: &str) -> io::Result<BTreeSet<String>>
where
    R: Files + AllocGlobal + Clone + Drop,
{
    let mut names = BTreeSet::new(rt.alloc());
    for entry in fs::read_dir(rt, folder)? {
        let entry = entry?;
        names.insert(String::from_str(rt.alloc(), script_of(entry.file_name()))?)?;
    }
    Ok(names)
}
