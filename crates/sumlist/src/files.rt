// The files of the system, by name.

ghost use Rattle.std.specs.IoError.{error_kind};
ghost use Rattle.std.specs.Io.Seek.{MovesTo};
ghost use Rattle.std.specs.Prelude.{◌≡◌, ◌↔◌, ◌⊎◌, ◌<◌, ℕ, Err, IsTrue, None, Ok, Result, IfErr, IfOk};
ghost use Rattle.std.specs.declared.io.ErrorKind.{ErrorKind};
ghost use Rattle.sumlist.specs.Opening.{fault_of};
ghost use Rattle.sumlist.specs.inside.FileTree.{tree_is_shared};
ghost use Rattle.sumlist.specs.inside.Moved.{IsMoved};
ghost use Rattle.either.specs.declared.Either.TheVariants.{Left};

use crate::tree::{OpenFault, Tree};
use either::Either;
use source::{Device, Feed};
use std::fs::{File, Metadata};
use std::io;
use std::io::{Empty, ErrorKind, Seek, SeekFrom};
use std::os::unix::fs::{FileTypeExt, MetadataExt};
use std::rt::Files;

/// The files of the system, whose names and contents are not told. What an open that fails is told as,
/// `OpenFault::of` says by the kind of the system's error.
#[derive(Drop)]
pub struct FileTree<'r, R: Files> {
    rt: &'r R,
    // what gives each of its bytes once, and is read beside the files
    taken: Option<Metadata>,
    // other runs read the same files
    is_shared: bool,
    failures: u64,
}

impl<'r, R: Files> FileTree<'r, R> {
    /// The files of the system, of which none has failed yet.
    pub fn new(rt: &'r R) -> FileTree<'r, R>
        ensures untold { ⟦<FileTree<'r, R> as Tree>⟧.files result ≡ None }
        ensures fresh { ⟦<FileTree<'r, R> as Tree>⟧.failure_count result ≡ 0 }
        ensures opens { ⟦<FileTree<'r, R> as Tree>⟧.opens result ≡ 0 }
    {
        FileTree {
            rt,
            taken: None,
            is_shared: false,
            failures: 0,
        }
    }

    /// The same beside what is read by this name. Where that is a pipe or a terminal, which gives each byte once,
    /// opening it is `Failed` under every name: what is read of it would be missing there.
    pub fn beside(rt: &'r R, name: &str) -> FileTree<'r, R>
        ensures untold { ⟦<FileTree<'r, R> as Tree>⟧.files result ≡ None }
        ensures fresh { ⟦<FileTree<'r, R> as Tree>⟧.failure_count result ≡ 0 }
        ensures opens { ⟦<FileTree<'r, R> as Tree>⟧.opens result ≡ 0 }
    {
        FileTree {
            taken: rt.metadata(name).ok().filter(gives_once),
            ..FileTree::new(rt)
        }
    }

    /// The same beside other runs that read the same files. Opening a pipe or a terminal is `Failed`: what is read of
    /// it here would be missing in the others.
    pub fn shared(self) -> FileTree<'r, R>
        ensures untold { ⟦<FileTree<'r, R> as Tree>⟧.files result ≡ None }
        ensures failures { ⟦<FileTree<'r, R> as Tree>⟧.failure_count result
            ≡ ⟦<FileTree<'r, R> as Tree>⟧.failure_count self.entry }
        ensures opens { ⟦<FileTree<'r, R> as Tree>⟧.opens result ≡ 0 }
        ensures shared { IsTrue (tree_is_shared result) }
    {
        FileTree {
            is_shared: true,
            ..self
        }
    }

    // Whether this name is one of what is read beside the files.
    fn is_taken(&self, name: &str) -> bool {
        let Some(taken) = &self.taken else {
            return false;
        };
        let found = self.rt.metadata(name);
        found.is_ok_and(|file| is_same((file.dev(), file.ino()), (taken.dev(), taken.ino())))
    }

    /// Whether the others would miss what is read by this name, as by that of standard input.
    pub fn is_lost(&self, name: &str) -> bool
        ensures shared { IsTrue result → IsTrue (tree_is_shared self.now) }
    {
        self.is_shared && self.rt.metadata(name).ok().filter(gives_once).is_some()
    }
}

impl<'r, R: Files> Tree for FileTree<'r, R> {
    type F = Device<Either<R::File, Empty>>;

    ghost failure_count = { λ t. t.failures };

    ghost opens = { λ _. 0 };

    ghost files = { λ _. None };

    fn open_at(&mut self, name: &str, position: u64) -> Result<Self::F, OpenFault> {
        let opened = if self.is_taken(name) || self.is_lost(name) {
            Err(OpenFault::Failed)
        } else {
            opened_at(File::open(self.rt, name), position)
        };
        match opened {
            Ok(reader) => Ok(Device::new(reader)),
            Err(OpenFault::Failed) => {
                self.failures = self.failures.saturating_add(1);
                Err(OpenFault::Failed)
            }
            Err(fault) => Err(fault),
        }
    }

    fn close(&mut self, feed: Self::F) {
        self.failures = self.failures.saturating_add(feed.failures());
    }
}

// Whether two names are those of one file, by the numbers of their devices and those of the files there.
fn is_same(one: (u64, u64), other: (u64, u64)) -> bool
    ensures { IsTrue result ↔ (one ≡ other) }
{
    one.0 == other.0 && one.1 == other.1
}

// Whether each byte of a file can be read but once.
fn gives_once(file: &Metadata) -> bool {
    let kind = file.file_type();
    is_once(kind.is_fifo(), kind.is_char_device())
}

// The same by what kind of file it is.
fn is_once(is_fifo: bool, is_char_device: bool) -> bool
    ensures { IsTrue result ↔ (IsTrue is_fifo ⊎ IsTrue is_char_device) }
{
    is_fifo || is_char_device
}

// What can be moved to a position. No body can know the answer but by a move, since `moves` may say anything.
trait Moves: Drop {
    // what a move to a position may answer, and what it leaves
    ghost moves: { Self → ℕ → Result ℕ ErrorKind → Self → Type 0 };

    fn move_to(&mut self, position: u64) -> Result<u64, ErrorKind>
        ensures { moves self.old position result self.new };
}

impl<F: Seek + Drop> Moves for F {
    ghost moves = { λ old position answer new.
        MovesTo (F.stream_position old) (F.stream_position new) position answer };

    fn move_to(&mut self, position: u64) -> Result<u64, ErrorKind> {
        self.seek(SeekFrom::Start(position))
            .map_err(|error| error.kind())
    }
}

// What the system's open came to: the file from a position on, nothing where no file has the position, or what its
// failure means. The beginning needs no seek, which a pipe refuses.
fn opened_at<F: Moves>(opened: io::Result<F>, position: u64) -> Result<Either<F, Empty>, OpenFault>
    ensures failed { IfErr opened (λ error. result ≡ Err (fault_of (error_kind error))) }
    ensures start { IfOk opened (λ file. position ≡ 0 → result ≡ Ok (Left file)) }
    ensures moved { IfOk opened (λ file. 0 < position → IsMoved F.moves file position result) }
{
    let mut file = opened.map_err(|error| OpenFault::of(error.kind()))?;
    if position == 0 {
        return Ok(Either::Left(file));
    }
    match file.move_to(position) {
        Ok(_) => Ok(Either::Left(file)),
        Err(ErrorKind::InvalidInput) => Ok(Either::Right(io::empty())),
        Err(_) => Err(OpenFault::Failed),
    }
}
