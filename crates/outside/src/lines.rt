ghost use Rattle.std.specs.Prelude.{◌≡◌, ◌≤◌, ◌<◌, ◌+◌, ◌^◌, ◌↔◌, ◌++◌, ◌∷◌, [], Some, None, IfOk, IsOk, OnOk, OnErr, IsTrue, Contains, length, sum, slice_get, option_copied, vec_len, vec_capacity};
ghost use Rattle.outside.specs.Calls.{IsNext, unused, listing, more};
ghost use Rattle.outside.specs.Counts.{IsCount, Rose};
ghost use Rattle.outside.specs.Lines.{Kept, pieces, taken, IsStored};
ghost use Rattle.outside.specs.Printer.{added};

use crate::failures::Failures;
use crate::{PrintErr, Printer};
use base_fields::NoMemory;
use std::alloc::Global;
use std::marker::Model;

/// A printer that keeps its lines in memory, up to a number of bytes, and of which the listed calls fail.
#[derive(Debug, Drop)]
pub struct MemPrinter {
    text: Vec<u8>,
    lengths: Vec<usize>,
    room: usize,
    failures: Failures,
}

impl Model for MemPrinter {
    ghost Value = { Kept };

    ghost view = { λ p. record { lines = pieces p.text.items p.lengths.items; room = p.room; calls = p.failures } };

    ghost invariant = { λ p. IsStored p.text p.lengths p.room };
}

impl MemPrinter {
    /// No line, and room for lines of so many bytes, where each line takes its bytes and 8 more. All memory is
    /// taken here: so many bytes for the lines, and as many again for their lengths.
    pub fn new(alloc: Global, room: usize) -> Result<MemPrinter, NoMemory>
        ensures { IfOk result (λ p. p ≡ record { lines = []; room = room; calls = unused }) }
    {
        Ok(MemPrinter {
            text: Vec::with_capacity(alloc, room)?,
            lengths: Vec::with_capacity(alloc, room / 8)?,
            room,
            failures: Failures::new(alloc),
        })
    }

    /// Lets the call of this number fail. The lines that are asked for are numbered from 0 from the making of the
    /// object.
    pub fn fail(&mut self, call: u64) -> Result<(), NoMemory>
        ensures ok { OnOk result (self.new ≡ record self.old { calls = listing self.old.calls call }) }
        ensures err { OnErr result (self.new ≡ self.old) }
    {
        self.failures.list(call)?;
        Ok(())
    }

    /// The line number `i`, counted from 0.
    #[tactic(auto, using(crate::proofs::LineLemmas::pieces_past))]
    pub fn kept(&self, i: usize) -> Option<&[u8]>
        ensures { option_copied result ≡ slice_get self.now.lines i }
    {
        if i < self.lengths.len() {
            Some(piece(self.text.as_slice(), self.lengths.as_slice(), i))
        } else {
            None
        }
    }
}

impl Printer for MemPrinter {
    ghost lines = { λ p. Some p.lines };

    ghost faults = { λ p. p.calls.faults };

    #[tactic(auto, using(crate::proofs::LineLemmas::pieces_more, crate::proofs::LineLemmas::taken_pieces))]
    fn line(&mut self, bytes: &[u8]) -> Result<(), PrintErr>
        ensures ok { OnOk result (self.new.calls.faults ≡ self.old.calls.faults) }
        ensures printed { OnOk result (Some self.new.lines ≡ added (Some self.old.lines) bytes.now) }
        ensures failed { OnErr result (Rose self.old.calls.faults self.new.calls.faults) }
        ensures none_fell { self.old.calls.faults ≤ self.new.calls.faults }
        ensures counted { IsCount self.new.calls.faults }
        ensures err { OnErr result (Some self.new.lines ≡ Some self.old.lines) }
        ensures numbered { IsNext self.old.calls self.new.calls }
        ensures same_room { self.new.room ≡ self.old.room }
        ensures fits { IsOk result ↔ ((¬ Contains self.old.calls.failing self.old.calls.next) × (taken self.old.lines + length bytes.now + 8 ≤ self.old.room)) }
    {
        if self.failures.fails() {
            return Err(PrintErr);
        }
        let left = self.room - self.text.len() - 8 * self.lengths.len();
        if left < 8 || left - 8 < bytes.len() {
            self.failures.count();
            return Err(PrintErr);
        }
        store(&mut self.text, &mut self.lengths, bytes);
        Ok(())
    }
}

/// Puts a line behind the others, where the room for it was taken.
fn store(text: &mut Vec<u8>, lengths: &mut Vec<usize>, line: &[u8])
    requires text { vec_len text.old + length line.now ≤ vec_capacity text.old }
    requires lengths { vec_len lengths.old + 1 ≤ vec_capacity lengths.old }
    ensures text { text.new.items ≡ text.old.items ++ line.now }
    ensures lengths { lengths.new.items ≡ lengths.old.items ++ length line.now ∷ [] }
    ensures text_room { vec_capacity text.old ≤ vec_capacity text.new }
    ensures lengths_room { vec_capacity lengths.old ≤ vec_capacity lengths.new }
{
    match (text.extend_from_slice(line), lengths.push(line.len())) {
        (Ok(()), Ok(())) => {}
        _ => unreachable!(),
    }
}

/// The piece number `i` of a text that is kept in pieces of these lengths.
#[tactic(auto, using(crate::proofs::LineLemmas::pieces_at, crate::proofs::LineLemmas::piece_within))]
fn piece<'a>(text: &'a [u8], lengths: &[usize], i: usize) -> &'a [u8]
    requires inside { i < length lengths.now }
    requires whole { sum lengths.now ≡ length text.now }
    ensures { Some result.now ≡ slice_get (pieces text.now lengths.now) i }
{
    let at = total(&lengths[..i]);
    &text[at..at + lengths[i]]
}

fn total(lengths: &[usize]) -> usize
    requires { sum lengths.now < 2 ^ 64 }
    ensures { result ≡ sum lengths.now }
{
    lengths.iter().sum()
}

/// A printer that keeps no line and never fails.
#[derive(Clone, Copy, Debug, Default, PartialEq, Eq)]
pub struct SurePrinter;

impl SurePrinter {
    pub fn new() -> SurePrinter {
        SurePrinter
    }
}

impl Printer for SurePrinter {
    ghost lines = { λ _. None };

    ghost faults = { λ _. 0 };

    fn line(&mut self, _bytes: &[u8]) -> Result<(), PrintErr> {
        Ok(())
    }
}
