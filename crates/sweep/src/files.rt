// The files that are read.
ghost use Rattle.std.specs.Prelude.{◌≡◌, ◌↔◌, true, IfOk, IsErrAnd};
ghost use Rattle.std.specs.IoError.{error_kind};
ghost use Rattle.io.specs.Counts.{IsPrefixLen};
ghost use Rattle.sweep.specs.Program.{after_read};

use std::fs::File;
use std::io;
use std::io::{ErrorKind, Read};
use std::ops::ControlFlow;
use std::rt::Files;

// Whether a read failed since the file is a folder.
fn of_folder(read: &io::Result<usize>) -> bool
    ensures { result ≡ true ↔ IsErrAnd read.now (λ e. error_kind e ≡ ErrorKind.IsADirectory) }
{
    matches!(read, Err(why) if why.kind() == ErrorKind::IsADirectory)
}

// What comes after a read: how many bytes more there are, or what the whole reading gives; by how many bytes were read before, and whether
// the read failed since the file is a folder. A folder opens, but its first read fails; it counts as empty.
fn after(
    read: io::Result<usize>,
    done: usize,
    folder: bool,
) -> ControlFlow<io::Result<usize>, usize>
    ensures { result ≡ after_read read done folder }
{
    match read {
        Ok(0) => ControlFlow::Break(Ok(done)),
        Ok(n) => ControlFlow::Continue(n),
        Err(_) if folder && done == 0 => ControlFlow::Break(Ok(0)),
        Err(why) => ControlFlow::Break(Err(why)),
    }
}

// Reads until the buffer is full, the file ends or a read fails, and answers how many bytes it put at the buffer's start. A read that a
// signal interrupts counts as one that failed, so that std's calls, which try it again, do not serve.
fn fill(file: &mut impl Read, buffer: &mut [u8]) -> io::Result<usize>
    ensures { IfOk result (λ n. IsPrefixLen n buffer.new) }
{
    let mut done = 0;
    while done < buffer.len() {
        let read = file.read(&mut buffer[done..]);
        let folder = of_folder(&read);
        match after(read, done, folder) {
            ControlFlow::Continue(n) => done += n,
            ControlFlow::Break(end) => return end,
        }
    }
    Ok(done)
}

// The first bytes of a file, as many as there is room for. A file that can't be opened counts as empty.
pub fn read(rt: &impl Files, name: &str, buffer: &mut [u8]) -> io::Result<usize>
    ensures { IfOk result (λ n. IsPrefixLen n buffer.new) }
{
    match File::open(rt, name) {
        Ok(mut file) => fill(&mut file, buffer),
        Err(_) => Ok(0),
    }
}
