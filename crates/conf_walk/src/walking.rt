ghost use Rattle.std.specs.Prelude.{◌≡◌, ◌+◌, ◌<◌, ◌≤◌, ◌⊎◌, ◌∷◌, ◌++◌, [], All, IfErr, IfOk, List, OnOk, length};
ghost use Rattle.base_fields.specs.declared.names.Pair.{Pair};
ghost use Rattle.outside.specs.Counts.{NoneFell};
ghost use Rattle.conf_lexer.specs.Standing.{StandsIn};
ghost use Rattle.conf_texts.specs.Answers.{Answers, HasCause};
ghost use Rattle.conf_texts.specs.Texts.{most_bytes, text_read, with_text};
ghost use Rattle.conf_walk.specs.Stack.{IsStack, Leads, begun, stack_walked, then_walked, work_left};
ghost use Rattle.conf_walk.specs.Walk.{nestings, texts_in, texts_of};

use crate::running::{OpenText, Stop, run_text};
use crate::{Vars, WalkFault};
use base_fields::{List, Name, NoMemory};
use conf_items::{Outline, TopItem};
use conf_texts::{Reading, Text, read_text};
use outside::Files;
use std::alloc::Global;

/// The main text has nesting 0, and the deepest has 8.
const NESTINGS: usize = 9;

/// What the texts of a configuration say.
#[derive(Debug, Drop)]
pub struct Texts {
    /// The items at the top, those of included texts in the place of each include.
    pub items: List<TopItem>,
    /// One name for each text that was read, in the order of reading, the main text first. The text of a
    /// [`conf_items::Place`] is the one of that number.
    pub names: List<Name>,
}

// The refusal of a text at a nesting above 8.
fn too_deep(alloc: Global, name: &str) -> Result<WalkFault, NoMemory>
    ensures { IfOk result (λ fault. fault ≡ WalkFault.DeepInclude name.now) }
{
    Ok(WalkFault::DeepInclude {
        name: Name::of(alloc, name)?,
    })
}

// Puts a text on the stack. Takes memory.
fn push(stack: &mut Vec<OpenText>, text: OpenText) -> Result<(), WalkFault>
    ensures ok { OnOk result (stack.new.items ≡ stack.old.items ++ text ∷ []) }
    ensures fault { IfErr result (λ fault. fault ≡ WalkFault.NoMemory) }
{
    stack.push(text).map_err(|_| WalkFault::NoMemory)?;
    Ok(())
}

// The text of that name, where `depth` texts are open. Takes memory.
fn open_text<F: Files>(
    alloc: Global,
    files: &mut F,
    name: &str,
    depth: usize,
    reading: &Reading,
) -> Result<Text, WalkFault>
    ensures none_fell { NoneFell (F.counts files.old) (F.counts files.new) }
    ensures cause { IfErr result (HasCause (F.counts files.old) (F.counts files.new)) }
    ensures same_files { F.file files.new ≡ F.file files.old }
    ensures stands { IfOk result (λ text. All (StandsIn text.bytes) text.tokens) }
    ensures count { IfOk result (λ text. length text.tokens ≤ length text.bytes) }
    ensures limit { IfOk result (λ text. reading.now.total + length text.bytes ≤ most_bytes) }
    ensures few { IfOk result (λ text. depth < nestings) }
    ensures deep { IfErr result (λ fault. nestings ≤ depth → (fault ≡ WalkFault.DeepInclude name.now) ⊎ (fault ≡ WalkFault.NoMemory)) }
    ensures answers { F.told → depth < nestings → Answers (text_read (F.file files.old) name.now reading.now) result }
{
    if depth >= NESTINGS {
        return Err(too_deep(alloc, name)?);
    }
    read_text(alloc, files, name, reading)
}

// Puts a text that was read on the stack. Takes memory.
fn add_text(
    alloc: Global,
    source: Text,
    stack: &mut Vec<OpenText>,
    reading: Reading,
) -> Result<Reading, WalkFault>
    requires stands { All (StandsIn source.bytes) source.tokens }
    requires count { length source.tokens ≤ length source.bytes }
    requires limit { reading.total + length source.bytes ≤ most_bytes }
    ensures made { IfOk result (λ after. after ≡ with_text reading source) }
    ensures pushed { OnOk result (stack.new.items ≡ stack.old.items ++ begun source ∷ []) }
    ensures fault { IfErr result (λ fault. fault ≡ WalkFault.NoMemory) }
{
    let after = reading.add(alloc, &source)?;
    push(stack, OpenText::new(source))?;
    Ok(after)
}

// Reads the text of that name and puts it on the stack. Takes memory.
fn enter<F: Files>(
    alloc: Global,
    files: &mut F,
    name: &str,
    stack: &mut Vec<OpenText>,
    reading: Reading,
) -> Result<Reading, WalkFault>
    requires { IsStack stack.old.items reading }
    ensures none_fell { NoneFell (F.counts files.old) (F.counts files.new) }
    ensures cause { IfErr result (HasCause (F.counts files.old) (F.counts files.new)) }
    ensures same_files { F.file files.new ≡ F.file files.old }
    ensures stack { IfOk result (IsStack stack.new.items) }
    ensures work { IfOk result (λ after. work_left stack.new.items after ≤ work_left stack.old.items reading + 1) }
    ensures leads { F.told → (vars : List Pair) → Leads (then_walked vars (F.file files.old) stack.old.items name.now reading) (stack_walked vars (F.file files.old) stack.new.items) result }
{
    let source = open_text(alloc, files, name, stack.len(), &reading)?;
    let after = add_text(alloc, source, stack, reading)?;
    Ok(after)
}

// Walks the innermost text up to its end, or to a text that it includes, which is then the innermost. Takes
// memory.
fn go_on<F: Files>(
    alloc: Global,
    files: &mut F,
    vars: &Vars,
    stack: &mut Vec<OpenText>,
    text: OpenText,
    reading: Reading,
) -> Result<Reading, WalkFault>
    requires { IsStack (stack.old.items ++ text ∷ []) reading }
    ensures none_fell { NoneFell (F.counts files.old) (F.counts files.new) }
    ensures cause { IfErr result (HasCause (F.counts files.old) (F.counts files.new)) }
    ensures same_files { F.file files.new ≡ F.file files.old }
    ensures stack { IfOk result (IsStack stack.new.items) }
    ensures work { IfOk result (λ after. work_left stack.new.items after < work_left (stack.old.items ++ text ∷ []) reading) }
    ensures leads { F.told → Leads (stack_walked vars.now (F.file files.old) (stack.old.items ++ text ∷ []) reading) (stack_walked vars.now (F.file files.old) stack.new.items) result }
{
    let stop = run_text(alloc, vars, text, reading)?;
    match stop {
        Stop::Ended(after) => Ok(after),
        Stop::Includes(text, name, before) => {
            push(stack, text)?;
            let after = enter(alloc, files, name.text.text(), stack, before)?;
            Ok(after)
        }
    }
}

// What the texts say, once all were read.
fn texts_in(reading: Reading) -> Texts
    ensures { result ≡ texts_in reading }
{
    let Reading { outline, names, .. } = reading;
    let Outline { items, .. } = outline;
    Texts { items, names }
}

/// Reads the text of that name with all that it includes. Takes memory. It reads each text once, and keeps
/// at most nine open at a time.
pub fn read_texts<F: Files>(
    alloc: Global,
    files: &mut F,
    name: &str,
    vars: &Vars,
) -> Result<Texts, WalkFault>
    ensures none_fell { NoneFell (F.counts files.old) (F.counts files.new) }
    ensures cause { IfErr result (HasCause (F.counts files.old) (F.counts files.new)) }
    ensures same_files { F.file files.new ≡ F.file files.old }
    ensures answers { F.told → Answers (texts_of vars.now (F.file files.old) name.now) result }
{
    let mut stack = Vec::new(alloc);
    let mut reading = enter(alloc, files, name, &mut stack, Reading::new(alloc))?;
    while let Some(text) = stack.pop() {
        reading = go_on(alloc, files, vars, &mut stack, text, reading)?;
    }
    Ok(texts_in(reading))
}
