ghost use Rattle.std.specs.Prelude.{None, Some, ◌≡◌};

use crate::FaultCounter;
use fw_base::{Failed, Library, Name};
use std::marker::Model;
use std::rt::Files;
use std::{fs, str};

/// The files of the system, opened by their paths. It tells no list; contracts see it as its count of faults
/// and the last name that it refused.
#[derive(Drop)]
pub struct FileLibrary<'a, R> {
    rt: &'a R,
    faults: u64,
    refused: Option<Name>,
}

impl<'a, R> Model for FileLibrary<'a, R> {
    ghost use Rattle.std.specs.Prelude.{ℕ, List, Option};

    ghost Value = { ℕ × Option (List ℕ) };

    ghost view = { λ l. (l.faults, l.refused) };
}

impl<'a, R: Files> FileLibrary<'a, R> {
    /// No opening failed yet.
    pub fn new(rt: &'a R) -> FileLibrary<'a, R>
        ensures { result ≡ (0, None) }
    {
        FileLibrary {
            rt,
            faults: 0,
            refused: None,
        }
    }

    /// The file of that name, if it can be opened.
    fn file(&self, name: &Name) -> Option<R::File> {
        let path = str::from_utf8(name.bytes()).ok()?;
        fs::open(self.rt, path).ok()
    }
}

impl<'a, R: Files> Library for FileLibrary<'a, R> {
    type Reader = FaultCounter<R::File>;

    ghost pairs = { λ _. None };

    ghost faults = { λ l. l.0 };

    ghost refused = { λ l. l.1 };

    fn open(&mut self, name: Name) -> Result<FaultCounter<R::File>, Failed> {
        match self.file(&name) {
            Some(file) => Ok(FaultCounter::new(file)),
            None => {
                self.faults = self.faults.saturating_add(1);
                self.refused = Some(name);
                Err(Failed)
            }
        }
    }
}
