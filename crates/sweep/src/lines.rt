// The lines that are printed, byte by byte.
ghost use Rattle.std.specs.Prelude.{◌+◌, ◌≤◌, ◌≡◌, ◌++◌, length};
ghost use Rattle.sweep.specs.declared.lines.TheConstants.{ROOM};

use book::Numbered;
use image::Found;

// No line is longer (`longest_line`).
pub const LONGEST: usize = 67;

// How many bytes the buffer has room for.
pub const ROOM: usize = 65536;

// A line and its numbers: the image's length and the number of tokens; a hit's end and its token; what was found in all; a refusal. It has no
// `Display`: `write!` can answer an error, and a line that is put into the buffer cannot.
#[derive(Clone, Copy)]
pub enum Line {
    Image(usize, usize),
    Hit(usize, usize),
    End(Found),
    Refused(Numbered),
}

// The lines that wait to be written: the first `used` of the bytes. An array, since no memory is asked for that may not be there.
#[derive(Drop)]
pub struct Buffer {
    pub bytes: [u8; ROOM],
    pub used: usize,
    ghost inside: { used ≤ ROOM },
}

impl Buffer {
    ghost use Rattle.sweep.specs.Lines.{decimal, longest_line, line, end_line, line_bytes, waits};

    pub fn new() -> Buffer
        ensures { result.used ≡ 0 }
    {
        Buffer {
            bytes: [0; ROOM],
            used: 0,
        }
    }

    // Bytes behind those that wait.
    fn append(&mut self, bytes: &[u8])
        requires { self.old.used + length bytes.now ≤ ROOM }
        ensures used { self.new.used ≡ self.old.used + length bytes.now }
        ensures waits { waits self.new ≡ waits self.old ++ bytes.now }
    {
        let end = self.used + bytes.len();
        self.bytes[self.used..end].copy_from_slice(bytes);
        self.used = end;
    }

    fn number(&mut self, n: usize)
        requires { self.old.used + 20 ≤ ROOM }
        ensures used { self.new.used ≤ self.old.used + 20 }
        ensures waits { waits self.new ≡ waits self.old ++ decimal n }
    {
        let mut digits = [0u8; 20];
        let k = io::decimal(n as u64, &mut digits);
        self.append(&digits[..k]);
    }

    // A word and a number.
    fn pair(&mut self, word: &[u8], n: usize)
        requires { self.old.used + length word.now + 20 ≤ ROOM }
        ensures used { self.new.used ≤ self.old.used + length word.now + 20 }
        ensures waits { waits self.new ≡ waits self.old ++ (word.now ++ decimal n) }
    {
        self.append(word);
        self.number(n);
    }

    // A line of two words, each with a number; the digits and the newline are 41 bytes at most.
    fn whole_line(&mut self, one: &[u8], a: usize, two: &[u8], b: usize)
        requires { self.old.used + length one.now + length two.now + 41 ≤ ROOM }
        ensures { waits self.new ≡ waits self.old ++ line one.now a two.now b }
    {
        self.pair(one, a);
        self.pair(two, b);
        self.append(b"\n");
    }

    // The last line, of three numbers: the first, with its word, stands before a line of the other two.
    fn end_line(&mut self, found: Found)
        requires { self.old.used + longest_line ≤ ROOM }
        ensures { waits self.new ≡ waits self.old ++ end_line found.hits found.fetched found.spared }
    {
        self.pair(b"end ", found.hits);
        self.whole_line(b" ", found.fetched, b" ", found.spared);
    }

    // A line behind those that wait.
    pub fn put(&mut self, what: Line)
        requires { self.old.used + longest_line ≤ ROOM }
        ensures { waits self.new ≡ waits self.old ++ line_bytes what }
    {
        match what {
            Line::Image(n, tokens) => self.whole_line(b"image ", n, b" tokens ", tokens),
            Line::Hit(end, token) => self.whole_line(b"hit ", end, b" ", token),
            Line::End(found) => self.end_line(found),
            Line::Refused(why) => self.whole_line(b"refused ", why.number, b" ", why.value),
        }
    }
}
