//! Writers that may share a terminal with the progress of a run.

use crate::progress::Progress;
use std::io;
use std::io::Write;

/// A writer before whose text the progress is cleared.
#[derive(Drop)]
pub(crate) struct Screen<'a, W: Write + Drop> {
    writer: W,
    progress: &'a Progress,
}

impl<'a, W: Write + Drop> Screen<'a, W> {
    /// A writer of the same bytes.
    pub(crate) fn over(writer: W, progress: &'a Progress) -> Screen<'a, W> {
        Screen { writer, progress }
    }
}

impl<'a, W: Write + Drop> Write for Screen<'a, W> {
    ghost contents = { λ screen. W.contents screen.writer };

    fn write(&mut self, bytes: &[u8]) -> io::Result<usize> {
        self.progress.clear();
        let count = self.writer.write(bytes)?;
        self.progress.pass(&bytes[..count]);
        Ok(count)
    }

    fn flush(&mut self) -> io::Result<()> {
        self.writer.flush()
    }
}
