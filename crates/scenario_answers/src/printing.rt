//! A step on a printer in memory.
use anyhow::Result;
use outside::{MemPrinter, Printer};
use scenario_words::{Arguments, Setting};
use std::alloc::Global;

/// Prints lines on a printer with so much room.
#[derive(Debug, Drop)]
pub struct PrintStep {
    room: usize,
    lines: Vec<String>,
}

impl PrintStep {
    /// The step of the words behind `print`.
    pub fn read(words: &mut Arguments) -> Result<PrintStep> {
        Ok(PrintStep {
            room: words.count("a room")?,
            lines: words.texts("a line")?,
        })
    }

    /// Shows which lines were printed, and all that were kept.
    pub fn play(&self, setting: &mut Setting) -> Result<String> {
        let mut printer = printer_of(setting, self.room)?;
        let mut shown = String::from_str(setting.alloc, "printed")?;
        for line in &self.lines {
            let word = match printer.line(line.as_bytes()) {
                Ok(()) => " yes",
                Err(_) => " no",
            };
            shown.push_str(word)?;
        }
        put_kept(setting.alloc, &printer, &mut shown)?;
        Ok(shown)
    }
}

/// A printer with so much room, on which the lines fail that were said to.
pub fn printer_of(setting: &mut Setting, room: usize) -> Result<MemPrinter> {
    let mut printer = MemPrinter::new(setting.alloc, room)?;
    for line in &setting.failing_lines {
        printer.fail(*line)?;
    }
    setting.failing_lines.clear();
    Ok(printer)
}

/// Puts the lines that a printer kept behind a text, each on a line behind two blanks.
pub fn put_kept(alloc: Global, printer: &MemPrinter, shown: &mut String) -> Result<()> {
    for i in 0..usize::MAX {
        let Some(line) = printer.kept(i) else {
            break;
        };
        shown.push_str("\n  ")?;
        shown.push_str(&String::from_utf8_lossy(alloc, line)?)?;
    }
    Ok(())
}
