ghost use Rattle.std.specs.Prelude.{◌≡◌, ◌≤◌, ℕ, List, OnOk, OnErr, Option};
ghost use Rattle.outside.specs.Counts.{IsCount, Rose};
ghost use Rattle.outside.specs.Printer.{added};

/// A line was not printed.
#[derive(Clone, Copy, Debug, PartialEq, Eq)]
pub struct PrintErr;

/// A printer of lines. Where it tells them, contracts see the lines so far.
pub trait Printer {
    /// The lines, each without its end, where the printer tells them.
    ghost lines: { Self → Option (List (List ℕ)) };

    /// How many lines failed.
    ghost faults: { Self → ℕ };

    /// Prints the bytes as one line. A failed call prints none.
    fn line(&mut self, bytes: &[u8]) -> Result<(), PrintErr>
        ensures ok { OnOk result (faults self.new ≡ faults self.old) }
        ensures printed { OnOk result (lines self.new ≡ added (lines self.old) bytes.now) }
        ensures failed { OnErr result (Rose (faults self.old) (faults self.new)) }
        ensures none_fell { faults self.old ≤ faults self.new }
        ensures counted { IsCount (faults self.new) }
        ensures err { OnErr result (lines self.new ≡ lines self.old) };
}
