// What the program writes of its vectors, and how it counts them.
use std::fmt::Display;
use std::io;
use std::io::Write;

// The lines on vectors, and how many vectors there were and how many came out as published.
#[derive(Drop)]
pub(crate) struct Report<'a, W> {
    out: &'a mut W,
    vectors: u64,
    same: u64,
}

impl<'a, W: Write> Report<'a, W> {
    pub(crate) fn new(out: &'a mut W) -> Self {
        Report {
            out,
            vectors: 0,
            same: 0,
        }
    }

    // Writes what became of a vector, and counts it.
    pub(crate) fn tell(&mut self, name: impl Display + Drop, same: bool) -> io::Result<()> {
        let outcome = if same { "same" } else { "DIFFERS" };
        writeln!(self.out, "{name}: {outcome}")?;
        self.vectors = self.vectors.saturating_add(1);
        self.same = self.same.saturating_add(u64::from(same));
        Ok(())
    }

    pub(crate) fn close(self) -> io::Result<()> {
        let Report { out, vectors, same } = self;
        writeln!(out, "{vectors} vectors, {same} the same")
    }
}
