// The lines wait in a buffer, so that few writes are made. After a write that fails nothing more is written, so that a last line means that
// all lines are there.
ghost use Rattle.std.specs.Prelude.{◌-◌, ◌≤◌, ◌≡◌, ◌++◌, [], length, take, OnOk};
ghost use Rattle.std.specs.Io.KnownBytes.{Appends, Keeps};
ghost use Rattle.std.specs.List.{range_with_len};
ghost use Rattle.sweep.specs.Lines.{line_bytes, hit_lines, waiting, waits};
ghost use Rattle.sweep.specs.Program.{image_limit};
ghost use Rattle.sweep.specs.Told.{told};
ghost use Rattle.sweep.specs.declared.lines.Line.TheVariants.{Image, End};

use crate::hits::{Hits, Part};
use crate::job::Job;
use crate::lines::{Buffer, LONGEST, Line, ROOM};
use image::Found;
use std::io;
use std::io::Write;

#[derive(Drop)]
pub struct Pen<W> {
    pub to: W,
    pub buffer: Buffer,
}

impl<W: Write + Drop> Pen<W> {
    pub fn new(to: W) -> Pen<W>
        ensures { (result.to ≡ to) × (result.buffer.used ≡ 0) }
    {
        Pen {
            to,
            buffer: Buffer::new(),
        }
    }

    // Writes what waits.
    fn flush(&mut self) -> io::Result<()>
        ensures used { self.new.buffer.used ≡ 0 }
        ensures bytes { self.new.buffer.bytes ≡ self.old.buffer.bytes }
        ensures written { OnOk result (Appends (W.contents self.old.to) (W.contents self.new.to) (waits self.old.buffer)) }
    {
        let n = self.buffer.used;
        self.buffer.used = 0;
        self.to.write_all(&self.buffer.bytes[..n])
    }

    // Where there is no room for a line what waits is written.
    fn room(&mut self) -> io::Result<()>
        ensures used { self.new.buffer.used ≡ waiting self.old.buffer.used ROOM }
        ensures bytes { self.new.buffer.bytes ≡ self.old.buffer.bytes }
        ensures told { OnOk result (Keeps (told W.contents self.old) (told W.contents self.new)) }
    {
        if ROOM - self.buffer.used < LONGEST {
            return self.flush();
        }
        Ok(())
    }

    // A line behind those that wait.
    pub fn line(&mut self, line: Line) -> io::Result<()>
        ensures waits { OnOk result (waits self.new.buffer
            ≡ take (waiting self.old.buffer.used ROOM) self.old.buffer.bytes ++ line_bytes line) }
        ensures told { OnOk result (Appends (told W.contents self.old) (told W.contents self.new) (line_bytes line)) }
    {
        self.room()?;
        self.buffer.put(line);
        Ok(())
    }

    // A line for each hit of a part that is not listed yet.
    pub fn hits(&mut self, hits: &Hits, part: Part) -> io::Result<()>
        requires { part.from ≤ image_limit }
        ensures { OnOk result (Appends (told W.contents self.old) (told W.contents self.new)
            (hit_lines hits.now part.from (range_with_len part.before (part.hits - part.before)))) }
    {
        for i in part.before..part.hits {
            self.line(hits.line(part.from, i))?;
        }
        Ok(())
    }

    // The last line; then what waits is written.
    pub fn end(&mut self, last: Line) -> io::Result<()>
        ensures { OnOk result (Appends (told W.contents self.old) (W.contents self.new.to) (line_bytes last)) }
    {
        self.line(last)?;
        self.flush()
    }

    // The lines of a sweep whose hits are all in the buffers.
    pub fn whole(&mut self, job: &Job, found: Found, hits: &Hits) -> io::Result<()>
        ensures { OnOk result (Appends (told W.contents self.old) (W.contents self.new.to)
            (line_bytes (Image (length job.now.image.now) job.now.totals.tokens)
            ++ hit_lines hits.now 0 (range_with_len 0 found.hits) ++ line_bytes (End found))) }
    {
        self.line(job.first_line())?;
        self.hits(
            hits,
            Part {
                from: 0,
                to: job.image.len(),
                before: 0,
                hits: found.hits,
            },
        )?;
        self.end(Line::End(found))
    }
}
