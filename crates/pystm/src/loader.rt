//! The loader over files.
ghost use Rattle.std.specs.Prelude.{◌≡◌, ◌≤◌, [], ◌∷◌, ◌++◌, length, take, None, IfSome, IfOk, IfErr, OnOk, OnErr};
ghost use Rattle.stm_io.specs.Outside.{LoadStops};
ghost use Rattle.pystm.specs.Devices.{faults_after_load, file_loader_state};

use crate::steady::read_some;
use py_data::{Bytes, Items, NoMemory};
use std::alloc::Global;
use std::fs::File;
use std::io::Read;
use std::marker::Model;
use std::rt::Files;
use stm_io::{LoadError, Loader};

/// How many bytes one read asks for.
const PIECE: usize = 8192;

/// A loader of files by their paths, which tells nothing of what a file holds.
#[derive(Drop)]
pub struct FileLoader<F> {
    files: F,
    alloc: Global,
    asked: Items<Bytes>,
    faults: u64,
}

impl<F> Model for FileLoader<F> {
    ghost use Rattle.pystm.specs.Devices.{FileLoaderValue};

    ghost Value = { FileLoaderValue };

    ghost view = { λ a. record { asked = a.asked; faults = a.faults } };
}

impl<F> FileLoader<F> {
    /// A loader that was asked for no name yet, and never failed.
    pub fn new(files: F, alloc: Global) -> FileLoader<F>
        ensures { result ≡ record { asked = []; faults = 0 } }
    {
        FileLoader {
            files,
            alloc,
            asked: Items::new(alloc),
            faults: 0,
        }
    }

    /// The names that it was asked for, the first one first.
    pub fn asked(&self) -> &[Bytes]
        ensures { result.now ≡ self.now.asked }
    {
        self.asked.as_slice()
    }

    /// Keeps that name.
    fn ask(&mut self, name: &str) -> Result<(), NoMemory>
        ensures ok { OnOk result (self.new.asked ≡ self.old.asked ++ name.now ∷ []) }
        ensures err { OnErr result (self.new.asked ≡ self.old.asked) }
        ensures same { self.new.faults ≡ self.old.faults }
    {
        let bytes = Bytes::from_slice(self.alloc, name.as_bytes())?;
        self.asked.push(bytes)
    }
}

impl<F: Files + Drop> Loader for FileLoader<F> {
    ghost state = { file_loader_state };

    fn load(&mut self, name: &str, most: usize) -> Result<Vec<u8>, LoadError>
        ensures short { IfOk result (λ v. length v.items ≤ most) }
        ensures asked { OnOk result (self.new.asked ≡ self.old.asked ++ name.now ∷ []) }
        ensures stops { IfErr result (λ e. LoadStops name.now e (file_loader_state self.old)
            (file_loader_state self.new)) }

        // Each failure is counted, and nothing else is.
        ensures counts { self.new.faults ≡ faults_after_load result self.old.faults }
        ensures later { self.old.faults ≤ self.new.faults }
    {
        self.ask(name)?;
        let answer = read_file(&self.files, self.alloc, name, most);
        if let Err(LoadError::Failed) = answer {
            self.faults = self.faults.saturating_add(1);
        }
        answer
    }

    fn faults(&self) -> u64 {
        self.faults
    }
}

/// The first `most` bytes of the file of that path, or all of a shorter one.
fn read_file<F: Files>(
    files: &F,
    alloc: Global,
    path: &str,
    most: usize,
) -> Result<Vec<u8>, LoadError>
    ensures { IfOk result (λ v. length v.items ≤ most) }
{
    match File::open(files, path) {
        Ok(mut file) => read_front(&mut file, alloc, most),
        Err(_) => Err(LoadError::Failed),
    }
}

/// The first `most` bytes that the reader gives, or all of fewer. Each turn of the loop reads at least one byte.
fn read_front<R: Read>(reader: &mut R, alloc: Global, most: usize) -> Result<Vec<u8>, LoadError>
    ensures text { IfOk result (λ v. IfSome (R.remaining reader.old) (λ xs. v.items ≡ take most xs)) }
    ensures short { IfOk result (λ v. length v.items ≤ most) }
{
    let mut piece = [0u8; PIECE];
    let mut text = Vec::new(alloc);
    while text.len() < most {
        let room = PIECE.min(most - text.len());
        match read_some(reader, &mut piece[..room]) {
            Ok(0) => break,
            Ok(n) => text.extend_from_slice(&piece[..n])?,
            Err(_) => return Err(LoadError::Failed),
        }
    }
    Ok(text)
}

#[cfg(test)]
mod tests {
    use super::*;
    use crate::slow::Slow;
    use std::test::Fail;

    #[test]
    fn loads_real_files(rt: HostRuntime) -> Result<(), Fail> {
        let mut loader = FileLoader::new(&rt, rt.alloc());
        let kind = "/proc/sys/kernel/ostype";
        let table: [(&str, usize, Option<&[u8]>); 6] = [
            (kind, 100, Some(b"Linux\n")),
            (kind, 6, Some(b"Linux\n")),
            (kind, 3, Some(b"Lin")),
            ("/dev/null", 5, Some(b"")),
            ("/", 5, None),
            ("/no/such/file", 5, None),
        ];
        for (name, most, wanted) in table {
            match (loader.load(name, most), wanted) {
                (Ok(text), Some(bytes)) => assert_eq!(rt; text.as_slice(), bytes),
                (answer, wanted) => assert!(rt;
                    answer == Err(LoadError::Failed) && wanted.is_none(),
                    "{name}"
                ),
            }
        }
        assert_eq!(rt; loader.load("/dev/zero", 20000)?.len(), 20000);
        assert_eq!(rt; loader.faults(), 2);
        assert!(rt;
            loader.asked().len() == 7 && loader.asked()[3].as_slice() == b"/dev/null".as_slice()
        );
        Ok(())
    }

    #[test]
    fn reads_the_front_by_small_reads(rt: HostRuntime) -> Result<(), Fail> {
        let table: [(usize, usize, Option<&[u8]>); 4] = [
            (9, 99, Some(b"abcde")),
            (2, 99, Some(b"ab")),
            (9, 1, None),
            (9, 11, None),
        ];
        for (most, breaks_at, wanted) in table {
            let mut reader = Slow::new(rt.alloc(), b"abcde", breaks_at)?;
            match (read_front(&mut reader, rt.alloc(), most), wanted) {
                (Ok(text), Some(bytes)) => assert_eq!(rt; text.as_slice(), bytes),
                (answer, wanted) => assert!(rt;
                    answer == Err(LoadError::Failed) && wanted.is_none(),
                    "{breaks_at}"
                ),
            }
        }
        Ok(())
    }
}
