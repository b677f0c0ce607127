use anyhow::ensure;
use std::fmt::Display;
use std::io;

/// Where the cases are printed, how many were run, and how many of them differ from what they should be.
#[derive(Drop)]
pub struct Report<'a, R> {
    rt: &'a R,
    cases: u32,
    wrong: u32,
}

impl<'a, R: Print> Report<'a, R> {
    /// A report of no case so far, printed there.
    pub fn new(rt: &'a R) -> Self {
        Report {
            rt,
            cases: 0,
            wrong: 0,
        }
    }

    /// A line that names the cases below it.
    pub fn heading(&self, text: impl Display + Drop) -> io::Result<()> {
        println!(self.rt; "{text}")
    }

    /// One case: prints it, with what was wanted where that differs.
    pub fn expect<N: Into<u64>>(&mut self, case: &str, got: N, wanted: N) -> io::Result<()> {
        let (got, wanted) = (got.into(), wanted.into());
        self.cases = self.cases.saturating_add(1);
        if got == wanted {
            println!(self.rt; "{case}: {got:#x}")
        } else {
            self.wrong = self.wrong.saturating_add(1);
            println!(self.rt; "{case}: {got:#x} DIFFERS FROM {wanted:#x}")
        }
    }

    /// The sum of the cases; an error where any differs.
    pub fn close(&self) -> anyhow::Result<()> {
        println!(self.rt; "{} cases, {} differ", self.cases, self.wrong)?;
        ensure!(self.wrong == 0, "a case differs");
        Ok(())
    }
}
