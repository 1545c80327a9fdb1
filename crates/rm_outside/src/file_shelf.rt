//! The opener of the system's files, and the shelf over it.
ghost use Rattle.std.specs.Prelude.{◌≡◌, ◌≤◌, ◌+◌, ℕ};
ghost use Rattle.rm_outside.specs.Faults.{counted};
ghost use Rattle.rm_outside.specs.Sink.{CountsErr};
ghost use Rattle.rm_outside.specs.Told.{counts_alone};

use crate::open_shelf::OpenShelf;
use crate::opens::Opens;
use std::fs::{File, OpenFile};
use std::io;
use std::io::{Input, Read};
use std::rt::Files;

/// A shelf of the system's files. A name is a path, and `-` is standard input.
///
/// It tells no content and no names. Its fetch fails where the system refuses to open or to read what has that
/// name, a read that a signal interrupts among these, and there is one count of faults for all names.
pub type FileShelf<'a, R> = OpenShelf<SystemFiles<'a, R>>;

/// What opens the system's files.
///
/// The bodies of this type's `open` and `read`, and of the `read` of `SystemFile`, are trusted to
/// open and to read what has the name: nothing tells what the system holds, so their contracts
/// speak of counts alone. All that `FileShelf` does with them is proved, over any opener.
#[derive(Drop)]
pub struct SystemFiles<'a, R> {
    rt: &'a R,
    faults: u64,
}

/// What a name of the system opens to.
#[derive(Drop)]
pub enum SystemFile<I, F> {
    Input(I),
    File(F),
}

impl<I: Read, F: Read> Read for SystemFile<I, F> {
    fn read(&mut self, buffer: &mut [u8]) -> io::Result<usize> {
        match self {
            SystemFile::Input(input) => input.read(buffer),
            SystemFile::File(file) => file.read(buffer),
        }
    }
}

impl<R: Files + Input> Opens for SystemFiles<'_, R> {
    type Opened = SystemFile<R::Reader, R::File>;

    ghost told = { λ s. counts_alone s.faults };

    fn open(&mut self, name: &str) -> io::Result<SystemFile<R::Reader, R::File>> {
        if name == "-" {
            return Ok(SystemFile::Input(self.rt.reader()));
        }
        match File::open(self.rt, name) {
            Ok(file) => Ok(SystemFile::File(file)),
            Err(error) => {
                self.faults = self.faults.saturating_add(1);
                Err(error)
            }
        }
    }

    fn size_hint(&self, opened: &SystemFile<R::Reader, R::File>) -> u64 {
        match opened {
            SystemFile::Input(_) => 0,
            SystemFile::File(file) => match file.metadata() {
                Ok(metadata) => metadata.len(),
                Err(_) => 0,
            },
        }
    }

    fn read(
        &mut self,
        _name: &str,
        opened: &mut SystemFile<R::Reader, R::File>,
        buffer: &mut [u8],
    ) -> io::Result<usize> {
        let result = opened.read(buffer);
        if result.is_err() {
            self.faults = self.faults.saturating_add(1);
        }
        result
    }
}

impl<'a, R: Files + Input> OpenShelf<SystemFiles<'a, R>> {
    /// The shelf of the files that this runtime opens, with no fault so far.
    pub fn new(rt: &'a R) -> FileShelf<'a, R>
        ensures { result.opens.faults ≡ 0 }
    {
        OpenShelf::over(SystemFiles { rt, faults: 0 })
    }
}

#[cfg(test)]
mod tests {
    use super::*;
    use crate::{FetchFault, Shelf};
    use std::fs;
    use std::test::Fail;

    /// More than two of the pieces that one read asks for.
    const LONG: usize = 2 * 65536 + 1;

    #[test]
    fn reads_files(rt: HostRuntime) -> Result<(), Fail> {
        let alloc = rt.alloc();
        let long = vec![in alloc; b'l'; LONG]?;
        fs::write(&rt, "five", "hello")?;
        fs::write(&rt, "none", "")?;
        fs::write(&rt, "long", long.as_slice())?;
        let mut shelf = FileShelf::new(&rt);
        let mut into = vec![in alloc; b'x']?;
        assert_eq!(rt; shelf.fetch("five", 5, &mut into), Ok(()));
        assert_eq!(rt; shelf.fetch("none", 0, &mut into), Ok(()));
        assert_eq!(rt; into.as_slice(), b"xhello".as_slice());
        for (limit, seen) in [(0, 1), (1, 2), (4, 5)] {
            let fault = FetchFault::TooLong { seen };
            assert_eq!(rt; shelf.fetch("five", limit, &mut into), Err(fault));
        }
        assert_eq!(rt; shelf.opens.faults, 0);
        for name in ["absent", ".", ""] {
            assert_eq!(rt; shelf.fetch(name, 9, &mut into), Err(FetchFault::Failed));
        }
        assert_eq!(rt; shelf.opens.faults, 3);
        assert_eq!(rt; into.as_slice(), b"xhello".as_slice());
        into.clear();
        assert_eq!(rt; shelf.fetch("long", u64::MAX, &mut into), Ok(()));
        assert_eq!(rt; into.as_slice(), long.as_slice());
        for name in ["five", "none", "long"] {
            fs::remove_file(&rt, name)?;
        }
        Ok(())
    }
}
