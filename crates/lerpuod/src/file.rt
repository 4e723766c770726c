// Files that the program reads.
use crate::fault::Fault;
use std::fs;

/// A file's bytes, and its name for what is said of them.
#[derive(Drop)]
pub struct InputFile {
    pub name: String,
    pub bytes: Vec<u8>,
}

impl InputFile {
    /// Reads the whole file.
    pub fn read(rt: &HostRuntime, name: String) -> Result<InputFile, Fault> {
        // a match moves the name into the answer that comes; a closure for `map_err` would keep it from the other
        match fs::read(rt, name.as_str()) {
            Ok(bytes) => Ok(InputFile { name, bytes }),
            Err(error) => Err(Fault::File { name, error }),
        }
    }
}
