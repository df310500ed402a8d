// Real files and streams. No contract says what they hold.
ghost use Rattle.std.specs.Prelude.{◌≡◌, ◌≤◌, None, length, IfOk, OnErr};

use crate::{Failed, Shelf, ShelfFault, Sink};
use std::io::{Read, Seek, SeekFrom, Write};
use std::rt::Files;
use std::{fs, io};

const CHUNK: usize = 65536;

// The longest name that is kept beside an open file; the system opens none that is longer.
const NAME_BYTES: usize = 4096;

// A file that is open, its name, and the place up to which it was read.
#[derive(Drop)]
struct Opened<F: Read + Drop> {
    file: F,
    name: [u8; NAME_BYTES],
    length: usize,
    at: u64,
}

impl<F: Read + Drop> Opened<F> {
    // Whether it is that file, and was read up to that place.
    fn is_at(&self, name: &str, from: u64) -> bool {
        match self.name.get(..self.length) {
            Some(kept) => from == self.at && kept == name.as_bytes(),
            None => false,
        }
    }

    // Reads on through a buffer of its own, since a read that fails may leave anything in its buffer.
    fn read_on(&mut self, into: &mut [u8]) -> io::Result<usize>
        ensures fits { IfOk result (λ n. n ≤ length into.old) }
        ensures err { OnErr result (into.new ≡ into.old) }
    {
        let mut chunk = [0u8; CHUNK];
        let room = into.len().min(CHUNK);
        let count = self.file.read(&mut chunk[..room])?;
        into[..count].copy_from_slice(&chunk[..count]);
        self.at = self.at.saturating_add(count as u64);
        Ok(count)
    }
}

// The open file, where it is the one asked for.
fn kept<F: Read + Drop>(opened: Option<Opened<F>>, name: &str, from: u64) -> Option<Opened<F>> {
    let file = opened?;
    if file.is_at(name, from) {
        Some(file)
    } else {
        None
    }
}

// Opens a file at a place. One that is read from its start need not be able to seek, as a pipe.
fn open_at<R: Files>(rt: &R, name: &str, from: u64) -> io::Result<Opened<R::File>> {
    let mut file = fs::open(rt, name)?;
    if from > 0 {
        file.seek(SeekFrom::Start(from))?;
    }
    let mut kept = [0u8; NAME_BYTES];
    let front = name.len().min(NAME_BYTES);
    kept[..front].copy_from_slice(&name.as_bytes()[..front]);
    Ok(Opened {
        file,
        name: kept,
        length: name.len(),
        at: from,
    })
}

/// The files of the system, by path. Its bytes are not told; the count of faults is raised at each
/// `Err` of the system, and no name is ever answered as missing.
///
/// A file stays open while it is read on from where the last read ended, so that one that is replaced
/// meanwhile is read whole as it was, and pipes can be read.
#[derive(Drop)]
pub struct FileShelf<R: Files + Drop> {
    rt: R,
    opened: Option<Opened<R::File>>,
    faults: u64,
}

impl<R: Files + Drop> FileShelf<R> {
    /// The files that `rt` reaches, with no fault yet.
    pub fn new(rt: R) -> FileShelf<R>
        ensures { ⟦<FileShelf<R> as Shelf>⟧.faults result ≡ 0 }
    {
        FileShelf {
            rt,
            opened: None,
            faults: 0,
        }
    }
}

impl<R: Files + Drop> Shelf for FileShelf<R> {
    ghost told = { λ _. None };

    ghost faults = { λ shelf. shelf.faults };

    ghost lends = { λ _ _. Unit {0} };

    fn read_at(&mut self, name: &str, from: u64, into: &mut [u8]) -> Result<usize, ShelfFault> {
        match read_part(&self.rt, self.opened.take(), name, from, into) {
            Ok((opened, count)) => {
                self.opened = opened;
                Ok(count)
            }
            Err(_) => {
                self.faults = self.faults.saturating_add(1);
                Err(ShelfFault::Failed)
            }
        }
    }
}

// Reads on from an open file where it is the one asked for, else from one that is opened; and keeps it open up to its
// end.
fn read_part<R: Files>(
    rt: &R,
    opened: Option<Opened<R::File>>,
    name: &str,
    from: u64,
    into: &mut [u8],
) -> io::Result<(Option<Opened<R::File>>, usize)>
    ensures fits { IfOk result (λ r. r.1 ≤ length into.old) }
    ensures err { OnErr result (into.new ≡ into.old) }
{
    let mut file = match kept(opened, name, from) {
        Some(file) => file,
        None => open_at(rt, name, from)?,
    };
    let count = file.read_on(into)?;
    if count > 0 {
        Ok((Some(file), count))
    } else {
        Ok((None, 0))
    }
}

/// A stream of the system. Its bytes are not told; the count of faults is raised at each `Err` of the
/// system, and where it takes no byte of a piece that has some.
#[derive(Drop)]
pub struct OutSink<W: io::Write + Drop> {
    writer: W,
    faults: u64,
}

impl<W: io::Write + Drop> OutSink<W> {
    /// What is written goes to `writer`; no fault yet.
    pub fn new(writer: W) -> OutSink<W>
        ensures { ⟦<OutSink<W> as Sink>⟧.faults result ≡ 0 }
    {
        OutSink { writer, faults: 0 }
    }
}

impl<W: io::Write + Drop> Sink for OutSink<W> {
    ghost written = { λ _. None };

    ghost faults = { λ sink. sink.faults };

    fn write(&mut self, piece: &[u8]) -> Result<usize, Failed> {
        match self.writer.write(piece) {
            Ok(count) if count > 0 || piece.is_empty() => Ok(count),
            _ => {
                self.faults = self.faults.saturating_add(1);
                Err(Failed)
            }
        }
    }
}
