//! A folder of the system as an outlet.

ghost use Rattle.std.specs.Prelude.{None};

use crate::count::with_fault;
use crate::{Failed, Outlet};
use dita_doc::{Name, Stop, Text};
use std::alloc::Global;
use std::io::ErrorKind;
use std::path::Path;
use std::rt::Files;
use std::{fs, io};

/// A folder that takes pages as files. It tells no pages, and counts each error of the system.
///
/// The folders of a name are made if they lack. A file that holds the page's bytes already is left
/// as it is, so that a rebuild does not touch what did not change. Another page is written beside its
/// place and renamed, so that no reader sees half of one. Pages of earlier runs stay.
#[derive(Drop)]
pub struct FolderOutlet<R: Files + AllocGlobal + Drop> {
    rt: R,
    folder: Text,
    faults: u64,
    last: Option<PageError>,
}

/// Why a page was not taken: the path of its file, and the error of the system.
#[derive(Drop)]
pub struct PageError {
    pub path: String,
    pub error: io::Error,
}

impl<R: Files + AllocGlobal + Drop> FolderOutlet<R> {
    /// The folder of this path, which need not be there yet.
    pub fn new(rt: R, folder: Text) -> FolderOutlet<R> {
        FolderOutlet {
            rt,
            folder,
            faults: 0,
            last: None,
        }
    }

    /// Why the last page that was not taken failed. For the reader of a message; no contract rests
    /// on it.
    pub fn last_error(&self) -> Option<&PageError> {
        self.last.as_ref()
    }

    // Puts a page at its path. A file that holds its bytes already is left as it is.
    fn put(&self, path: Path<'_>, beside: &str, bytes: &[u8]) -> io::Result<()> {
        if self.holds(path, bytes) {
            Ok(())
        } else {
            self.write(path, beside, bytes)
        }
    }

    // Puts the file of a page there, and makes its folders if they lack. Without success the file
    // beside its place is removed, if the system lets it.
    fn write(&self, path: Path<'_>, beside: &str, bytes: &[u8]) -> io::Result<()> {
        let mut written = self.write_beside(path, beside, bytes);
        if is_not_found(&written) {
            self.make_folders(path)?;
            written = self.write_beside(path, beside, bytes);
        }
        if written.is_err() {
            // If it can't be removed either, that is no second fault: the page has failed already.
            let _ = fs::remove_file(&self.rt, beside);
        }
        written
    }

    fn make_folders(&self, path: Path<'_>) -> io::Result<()> {
        match path.parent() {
            Some(parent) => fs::create_dir_all(&self.rt, parent),
            None => Ok(()),
        }
    }

    fn write_beside(&self, path: Path<'_>, beside: &str, bytes: &[u8]) -> io::Result<()> {
        fs::write(&self.rt, beside, bytes)?;
        fs::rename(&self.rt, beside, path)
    }

    fn holds(&self, path: Path<'_>, bytes: &[u8]) -> bool {
        match fs::read(&self.rt, path) {
            Ok(old) => old.as_slice() == bytes,
            Err(_) => false,
        }
    }
}

// Whether the system has no such file or folder.
fn is_not_found(written: &io::Result<()>) -> bool {
    match written {
        Ok(()) => false,
        Err(error) => error.kind() == ErrorKind::NotFound,
    }
}

impl<R: Files + AllocGlobal + Drop> Outlet for FolderOutlet<R> {
    ghost pages = { λ _. None };

    ghost faults = { λ o. o.faults };

    fn put_page(&mut self, alloc: Global, name: &Name, bytes: &[u8]) -> Result<(), Stop<Failed>> {
        let folder = self.folder.as_str();
        let name = name.as_str();
        let path = format!(in alloc; "{folder}/{name}")?;
        // A name has no space, so no page stands where this one is written.
        let beside = format!(in alloc; "{folder}/{name} new")?;
        match self.put(Path::new(path.as_str()), beside.as_str(), bytes) {
            Ok(()) => Ok(()),
            Err(error) => {
                self.faults = with_fault(self.faults);
                self.last = Some(PageError { path, error });
                Err(Stop::Fault(Failed))
            }
        }
    }
}
