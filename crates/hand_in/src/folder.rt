// A hand-in and its files.
use std::{fs, io};

// The folder that a hand-in lies in, and what is typed while its program runs.
#[derive(Clone, Copy)]
pub(crate) struct HandIn<'a> {
    pub(crate) folder: &'a str,
    pub(crate) script: &'a [u8],
}

pub(crate) fn say_unread(rt: &HostRuntime, name: &str, e: io::Error) -> io::Result<()> {
    println!(rt; "{name} can't be read: {e}")
}

impl HandIn<'_> {
    pub(crate) fn path(&self, rt: &HostRuntime, name: &str) -> io::Result<String> {
        Ok(format!(in rt.alloc(); "{}/{name}", self.folder)?)
    }

    // The bytes of a file; where it can't be read, a line says so. That line is printed elsewhere, so that a read keeps no room for it on the stack.
    pub(crate) fn read(&self, rt: &HostRuntime, name: &str) -> io::Result<Option<Vec<u8>>> {
        let path = self.path(rt, name)?;
        match fs::read(rt, path.as_str()) {
            Ok(bytes) => Ok(Some(bytes)),
            Err(e) => {
                say_unread(rt, name, e)?;
                Ok(None)
            }
        }
    }
}
