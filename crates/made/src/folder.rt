//! A folder for one test.
use std::alloc::{AllocError, Global};
use std::fs::Permissions;
use std::os::unix::fs::PermissionsExt;
use std::{env, fs, io};

/// A folder that was empty when the test began.
#[derive(Drop)]
pub struct Folder {
    path: String,
}

impl Folder {
    /// Makes a folder among the temporary files, under a name that nothing has there.
    pub fn new(rt: &HostRuntime) -> io::Result<Folder> {
        let base = env::temp_dir(rt)?;
        for number in 0..10_000u64 {
            let path = format!(in rt.alloc(); "{}/host-tests-{number}", base.as_str())?;
            if fs::create_dir(rt, path.as_str()).is_ok() {
                return Ok(Folder { path });
            }
            drop(path);
        }
        Err(io::Error::from(io::ErrorKind::AlreadyExists))
    }

    /// Returns the path of a name in the folder.
    pub fn path(&self, alloc: Global, name: &str) -> Result<String, AllocError> {
        format!(in alloc; "{}/{name}", self.path.as_str())
    }

    /// Makes a folder in it.
    pub fn put_folder(&self, rt: &HostRuntime, name: &str) -> io::Result<()> {
        let path = self.path(rt.alloc(), name)?;
        fs::create_dir(rt, path.as_str())
    }

    /// Makes a file of these bytes in it.
    pub fn put(&self, rt: &HostRuntime, name: &str, bytes: &[u8]) -> io::Result<()> {
        let path = self.path(rt.alloc(), name)?;
        fs::write(rt, path.as_str(), bytes)
    }

    /// Tells whether a file in it has these bytes.
    pub fn has(&self, rt: &HostRuntime, name: &str, bytes: &[u8]) -> bool {
        match self.read(rt, name) {
            Ok(found) => found.as_slice() == bytes,
            Err(_) => false,
        }
    }

    /// Returns the bytes of a file in it.
    pub fn read(&self, rt: &HostRuntime, name: &str) -> io::Result<Vec<u8>> {
        let path = self.path(rt.alloc(), name)?;
        fs::read(rt, path.as_str())
    }

    /// Renames a file in it, and replaces the file that has the new name.
    pub fn rename(&self, rt: &HostRuntime, from: &str, to: &str) -> io::Result<()> {
        let old = self.path(rt.alloc(), from)?;
        let new = self.path(rt.alloc(), to)?;
        fs::rename(rt, old.as_str(), new.as_str())
    }

    /// Takes all rights to a file away. Tells whether it can then not be read; a process of root can read it nevertheless.
    pub fn close(&self, rt: &HostRuntime, name: &str) -> bool {
        let Ok(path) = self.path(rt.alloc(), name) else {
            return false;
        };
        fs::set_permissions(rt, path.as_str(), Permissions::from_mode(0)).is_ok()
            && fs::read(rt, path.as_str()).is_err()
    }

    /// Removes the folder with all that is in it. Tells whether it is gone.
    pub fn remove(self, rt: &HostRuntime) -> bool {
        fs::remove_dir_all(rt, self.path.as_str()).is_ok()
    }
}
