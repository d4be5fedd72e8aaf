// Lines of a reader, one after another.
ghost use Rattle.std.specs.Prelude.{◌≡◌, ◌+◌, ◌≤◌, ◌<◌, ◌++◌, ◌∷◌, List, ℕ, true, false, [], length, take, drop};
ghost use Rattle.std.specs.Prelude.{Ok, IfOk, OnOk, OnErr};
ghost use Rattle.std.specs.Io.KnownBytes.{Consumes, IsAtEnd};
ghost use Rattle.la_io.specs.Limits.{is_too_long};
ghost use Rattle.la_io.specs.Sources.{IsOneLine, IsHeld, IsPart, IsNextLine, TakesSome, pending, ahead, has_line, of_line, last_kind};

use crate::source::limit_of;
use crate::{Next, Source, SourceFault};
use std::alloc::{AllocError, Global};
use std::io::Read;

// The most bytes that a read asks for.
const CHUNK: usize = 8192;

// Where a line ends: how many bytes are before its end and how many with it, and whether it does end.
fn first_end(bytes: &[u8]) -> (usize, usize, bool)
    ensures part { IsPart bytes.now (drop result.1 bytes.now) result.2 (take result.0 bytes.now) }
    ensures front { result.0 ≤ length bytes.now }
    ensures within { result.1 ≤ length bytes.now }
{
    for n in 0..bytes.len() {
        if bytes[n] == b'\n' {
            return (n, n + 1, true);
        }
    }
    (bytes.len(), bytes.len(), false)
}

// Puts bytes behind a line while it is not too long. Answers whether it is.
fn add(line: &mut Vec<u8>, is_long: bool, part: &[u8]) -> Result<bool, AllocError>
    requires { is_too_long line.old.items ≡ false }
    ensures kept { (got : List ℕ) → IsHeld is_long got line.old.items
        → IfOk result (λ long. IsHeld long (got ++ part.now) line.new.items) }
    ensures short { is_too_long line.new.items ≡ false }
{
    if is_long {
        return Ok(true);
    }
    let limit = if line.is_empty() {
        limit_of(part)
    } else {
        limit_of(line)
    };
    if part.len() > limit - line.len() {
        return Ok(true);
    }
    line.extend_from_slice(part)?;
    Ok(false)
}

impl Source {
    /// Nothing read yet.
    pub fn new(alloc: Global) -> Source
        ensures nothing { pending result ≡ [] }
        ensures open { result.over ≡ false }
    {
        Source {
            chunk: [0; CHUNK],
            start: 0,
            end: 0,
            over: false,
            line: Vec::new(alloc),
        }
    }

    /// Whether the next line, with its end, was read already, so that [`Source::next`] waits for nothing.
    pub fn has_line(&self) -> bool
        ensures { result ≡ has_line self.now }
    {
        let chunk = self.chunk.as_slice();
        chunk[self.start..self.end].contains(&b'\n')
    }

    // Reads more, once all is taken. At the end of the input it is over.
    fn fill<R: Read>(&mut self, reader: &mut R) -> Result<(), SourceFault>
        requires { self.old.start ≡ self.old.end }
        ensures read { Consumes (ahead self.old (R.remaining reader.old)) (ahead self.new (R.remaining reader.new)) [] }
        ensures over { self.new.over ≡ true → IsAtEnd (ahead self.new (R.remaining reader.new)) }
        ensures line { self.new.line ≡ self.old.line }
    {
        self.start = 0;
        self.end = 0;
        self.over = false;
        match reader.read(&mut self.chunk) {
            Ok(count) => {
                self.end = count;
                self.over = count == 0;
                Ok(())
            }
            Err(_) => Err(SourceFault::ReadFault),
        }
    }

    // Reads more where all is taken. Answers whether there is more.
    fn ready<R: Read>(&mut self, reader: &mut R) -> Result<bool, SourceFault>
        requires { self.old.over ≡ true → IsAtEnd (ahead self.old (R.remaining reader.old)) }
        ensures read { Consumes (ahead self.old (R.remaining reader.old)) (ahead self.new (R.remaining reader.new)) [] }
        ensures over { self.new.over ≡ true → IsAtEnd (ahead self.new (R.remaining reader.new)) }
        ensures none { result ≡ Ok false → self.new.over ≡ true }
        ensures some { result ≡ Ok true → self.new.over ≡ false }
        ensures still { self.old.over ≡ true → result ≡ Ok false }
        ensures line { self.new.line ≡ self.old.line }
    {
        if self.start != self.end {
            return Ok(true);
        }
        if self.over {
            return Ok(false);
        }
        self.fill(reader)?;
        Ok(!self.over)
    }

    // Takes bytes up to a line's end, or all that was read. Answers whether the line has ended, and
    // whether it is too long.
    fn take(&mut self, is_long: bool) -> Result<(bool, bool), AllocError>
        ensures part { (got : List ℕ) → IsHeld is_long got self.old.line.items → IfOk result (λ r. (part : List ℕ)
            × IsPart (pending self.old) (pending self.new) r.0 part × IsHeld r.1 (got ++ part) self.new.line.items) }
        ensures over { self.new.over ≡ self.old.over }
        ensures err { OnErr result (pending self.new ≡ pending self.old) }
    {
        let chunk = self.chunk.as_slice();
        let rest = &chunk[self.start..self.end];
        let (count, behind, ended) = first_end(rest);
        let long = add(&mut self.line, is_long, &rest[..count])?;
        self.start += behind;
        Ok((ended, long))
    }

    // What an ended line is.
    fn of_line(is_long: bool) -> Next
        ensures { result ≡ of_line is_long }
    {
        if is_long { Next::Long } else { Next::Line }
    }

    // What the end of the input ends.
    fn last(&self, is_long: bool) -> Next
        ensures { result ≡ last_kind is_long self.now.line.items }
    {
        if is_long || !self.line.is_empty() {
            Next::Cut
        } else {
            Next::End
        }
    }

    /// Takes the next line, which stays until the next call.
    ///
    /// `ReadFault` comes at the first read that fails, and `Memory` where the line finds no room. What
    /// was taken of the line until then is lost. After the end there is no read any more.
    pub fn next<R: Read>(&mut self, reader: &mut R) -> Result<Next, SourceFault>
        requires { self.old.over ≡ true → IsAtEnd (ahead self.old (R.remaining reader.old)) }
        ensures next { IfOk result (λ next. IsNextLine (ahead self.old (R.remaining reader.old))
            (ahead self.new (R.remaining reader.new)) self.new.line.items next) }
        ensures over { self.new.over ≡ true → IsAtEnd (ahead self.new (R.remaining reader.new)) }
        ensures end { self.old.over ≡ true → result ≡ Ok Next.End }
        ensures lost { OnErr result (TakesSome (ahead self.old (R.remaining reader.old))
            (ahead self.new (R.remaining reader.new))) }
    {
        self.line.clear();
        let mut is_long = false;
        for _ in 0..u64::MAX {
            if !self.ready(reader)? {
                return Ok(self.last(is_long));
            }
            let Ok(taken) = self.take(is_long) else {
                return Err(SourceFault::Memory);
            };
            if taken.0 {
                return Ok(Source::of_line(taken.1));
            }
            is_long = taken.1;
        }
        Err(SourceFault::ReadFault)
    }
}
