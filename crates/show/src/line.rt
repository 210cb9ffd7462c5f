// A line of the dump, gathered before it is written.
use arrayvec::ArrayVec;
use listing::words::label;
use listing::{Label, Text, newline};
use std::io;

// What is gathered. A long line is written in parts.
#[derive(Drop)]
pub(crate) struct Line {
    bytes: ArrayVec<u8, 1024>,
}

// A line with these words.
pub(crate) fn write_line(rt: &impl Print, which: Label, words: &[Text]) -> io::Result<()> {
    Line::start(rt, which)?.with_all(rt, words)?.end(rt)
}

impl Line {
    // Nothing gathered yet.
    pub(crate) fn empty() -> Line {
        Line {
            bytes: ArrayVec::new(),
        }
    }

    // The head of a line.
    pub(crate) fn start(rt: &impl Print, which: Label) -> io::Result<Line> {
        Line::empty().with(rt, label(which))
    }

    // A word more. Where there may be no room for it, what is gathered is written first: where fewer bytes are left than
    // the longest word has, however long this one is.
    pub(crate) fn with(mut self, rt: &impl Print, t: Text) -> io::Result<Line> {
        let word = &t.bytes[..t.len.min(t.bytes.len())];
        if self.bytes.remaining_capacity() < t.bytes.len() {
            rt.write_all(&self.bytes)?;
            self.bytes.clear();
        }
        self.bytes.try_extend_from_slice(word).unwrap();
        Ok(self)
    }

    // These words more.
    pub(crate) fn with_all(self, rt: &impl Print, words: &[Text]) -> io::Result<Line> {
        self.with_each(rt, words, |word| word)
    }

    // A word more for each of some values. Each function that takes a closure has to say that it may be called with any
    // value, so this clause stands at the two others of this crate too.
    pub(crate) fn with_each<T: Copy, F: Fn(T) -> Text>(
        self,
        rt: &impl Print,
        values: &[T],
        word: F,
    ) -> io::Result<Line>
        requires { F.IsAlwaysCallable word }
    {
        let mut line = self;
        for &value in values {
            line = line.with(rt, word(value))?;
        }
        Ok(line)
    }

    // The end of the line.
    pub(crate) fn end(self, rt: &impl Print) -> io::Result<()> {
        let line = self.with(rt, newline())?;
        rt.write_all(&line.bytes)
    }
}
