use std::alloc::Global;
use std::env;
use std::io::ErrorKind;

/// The words of the command line after the program's name.
#[derive(Drop)]
pub(crate) enum Words {
    /// They are text.
    Read(Vec<String>),
    /// One of them isn't UTF-8.
    NotText,
    /// Out of memory.
    OutOfMemory,
}

/// Reads the words after the program's name.
pub(crate) fn read_words(rt: &HostRuntime, alloc: Global) -> Words {
    let mut args = match env::args(rt) {
        Ok(args) => args,
        Err(error) => {
            return match error.kind() {
                ErrorKind::InvalidData => Words::NotText,
                _ => Words::OutOfMemory,
            };
        }
    };
    let _name = args.next();
    match args.collect(alloc) {
        Ok(words) => Words::Read(words),
        Err(_) => Words::OutOfMemory,
    }
}
