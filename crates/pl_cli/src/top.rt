// The top call and how its parts end.
ghost use Rattle.std.specs.Prelude.{◌≡◌, ℕ, IfOk, List, Option, Some, false, map, option_map, string_bytes};
ghost use Rattle.pl_place.specs.Policy as policy;
ghost use Rattle.pl_io.specs.Seen.{Input};
ghost use Rattle.pl_folder.specs.Seen.{IsFolder, Seen};
ghost use Rattle.pl_cli.specs.declared.command.Command as commands;
ghost use Rattle.pl_cli.specs.declared.command.Command.TheVariants.{Verify};
ghost use Rattle.pl_base.specs.Names.{IsNameLength};
ghost use Rattle.pl_cli.specs.Answer.{compared, done, load_answer};
ghost use Rattle.pl_texts.specs.DoneText.{fixed_text, undone_text};
ghost use Rattle.pl_cli.specs.Came.{Came, HasVerified, as_is};
ghost use Rattle.pl_texts.specs.Files.{Unasked};
ghost use Rattle.pl_cli.specs.Load.{MayStart, choice, start_by};
ghost use Rattle.pl_cli.specs.Outside.{is_write_fault, outside};
ghost use Rattle.pl_cli.specs.Ran.{Finishes, Ran, RanLoad, Refuses, Writes};
ghost use Rattle.pl_cli.specs.Words.{asks_folder, command, reads_input};

use crate::all::{prelink, preview};
use crate::change::{remove, undo};
use crate::chosen::chosen;
use crate::command::Command;
use crate::demo::demo;
use crate::fix::{fix, unfix};
use crate::load::{load, start};
use crate::store::store;
use crate::verify::verify;
use crate::weave::weave;
use crate::words::read_words;
use pl_batch::Run;
use pl_elf::Range;
use pl_folder::Folder;
use pl_io::{Sink, Source, write_all};
use pl_loader::Loader;
use pl_place::{Holes, Placer};
use pl_texts::{
    DIFFERS, Stop, USAGE, WriteStop, fixed_line, order, print, refusal, undone_line, write_start,
};
use pl_words::{Policy, Status, WordsFault};
use std::alloc::Global;

/// Writes a whole text and ends so, or with a fault of the output.
fn finish<K: Sink>(output: &mut K, text: &[u8], status: Status) -> Status
    requires { is_write_fault status ≡ false }
    ensures { Finishes (record { status = status; text = text.now }) result
        (K.seen output.old) (K.seen output.new) }
{
    match write_all(output, text) {
        Ok(()) => status,
        Err(_) => Status::WriteFault,
    }
}

/// Ends with a stop: writes the line of a cause, unless there is no memory for it, and of no other stop anything.
fn refuse<K: Sink>(alloc: Global, stop: Stop, output: &mut K) -> Status
    ensures { Refuses stop result (K.seen output.old) (K.seen output.new) }
{
    match stop {
        Stop::Cause(cause) => match refusal(alloc, &cause) {
            Ok(line) => finish(output, &line, Status::Refused),
            Err(_) => Status::NoMemory,
        },
        Stop::Failed => Status::DiskFault,
        Stop::InputFailed => Status::ReadFault,
        Stop::NoMemory => Status::NoMemory,
    }
}

/// Writes the text that a command came to and ends so, or ends with its stop.
fn end_with<K: Sink>(alloc: Global, came: Result<Vec<u8>, Stop>, output: &mut K) -> Status
    ensures { (asked : Option commands.Command) (a b : Seen) (left rest : Input) → IsFolder a →
        Came asked as_is came a b left rest →
        Ran asked (outside a left (K.seen output.old)) (outside b rest (K.seen output.new)) result }
{
    match came {
        Ok(text) => finish(output, &text, Status::Done),
        Err(stop) => refuse(alloc, stop, output),
    }
}

/// Writes how many files were undone, for which it takes no memory.
fn finish_undone<K: Sink>(output: &mut K, count: usize) -> Status
    ensures { Finishes (done (undone_text count)) result (K.seen output.old) (K.seen output.new) }
{
    let text = undone_line(count);
    finish(output, text.as_slice(), Status::Done)
}

/// Writes how many files a command undid and ends so, or ends with its stop.
fn end_undone<K: Sink>(alloc: Global, came: Result<usize, Stop>, output: &mut K) -> Status
    ensures { (asked : Option commands.Command) (a b : Seen) (left rest : Input) → IsFolder a →
        Came asked undone_text came a b left rest →
        Ran asked (outside a left (K.seen output.old)) (outside b rest (K.seen output.new)) result }
{
    match came {
        Ok(count) => finish_undone(output, count),
        Err(stop) => refuse(alloc, stop, output),
    }
}

/// Writes where a command fixed a program, for which it takes no memory.
fn finish_fixed<K: Sink>(output: &mut K, name: &str, address: u64) -> Status
    requires { IsNameLength name.now }
    ensures { Finishes (done (fixed_text name.now address)) result
        (K.seen output.old) (K.seen output.new) }
{
    let text = fixed_line(name, address);
    finish(output, text.as_slice(), Status::Done)
}

/// Writes where a command fixed the program of a name and ends so, or ends with its stop.
fn end_fixed<K: Sink>(alloc: Global, name: &str, came: Result<u64, Stop>, output: &mut K) -> Status
    requires { IfOk came (λ _. IsNameLength name.now) }
    ensures { (asked : Option commands.Command) (a b : Seen) (left rest : Input) → IsFolder a →
        Came asked (fixed_text name.now) came a b left rest →
        Ran asked (outside a left (K.seen output.old)) (outside b rest (K.seen output.new)) result }
{
    match came {
        Ok(address) => finish_fixed(output, name, address),
        Err(stop) => refuse(alloc, stop, output),
    }
}

/// Writes the original of a file that was compared, or that it differs, and ends so.
fn finish_compared<K: Sink>(output: &mut K, original: Option<Vec<u8>>) -> Status
    ensures { Finishes (compared (option_map (λ v. v.items) original)) result
        (K.seen output.old) (K.seen output.new) }
{
    match original {
        Some(original) => finish(output, &original, Status::Done),
        None => finish(output, DIFFERS, Status::Differs),
    }
}

/// Writes what comparing a file came to and ends so, or ends with its stop.
fn end_verified<K: Sink>(
    alloc: Global,
    came: Result<Option<Vec<u8>>, Stop>,
    output: &mut K,
) -> Status
    ensures { (name : List ℕ) (a b : Seen) (input : Input) → IsFolder a →
        HasVerified name came a b →
        Ran (Some (Verify name)) (outside a input (K.seen output.old))
        (outside b input (K.seen output.new)) result }
{
    match came {
        Ok(original) => finish_compared(output, original),
        Err(stop) => refuse(alloc, stop, output),
    }
}

/// Writes what a program starts from whose files were all given, or the line of the first cause why it does not.
fn start_and_write<K: Sink, F: Fn(&Holes, u64, u64) -> Option<u64>>(
    alloc: Global,
    loader: &Loader<'_, F>,
    output: &mut K,
) -> Status
    requires { MayStart F.pre F.post loader.now }
    ensures { (choose : policy.Choice) → policy.Follows (F.post loader.now.policy) choose →
        Writes (load_answer (start_by choose loader.now)) result
        (K.seen output.old) (K.seen output.new) }
{
    match start(alloc, loader) {
        Ok(started) => match write_start(alloc, &started, output) {
            Ok(()) => Status::Done,
            Err(WriteStop::Failed) => Status::WriteFault,
            Err(WriteStop::NoMemory) => Status::NoMemory,
        },
        Err(stop) => refuse(alloc, stop, output),
    }
}

/// Loads a program with its libraries where a placer says, and writes what it starts from, or the line of the first cause why it does not.
fn load_placed<D: Folder, K: Sink, F: Fn(&Holes, u64, u64) -> Option<u64>>(
    alloc: Global,
    folder: &mut D,
    output: &mut K,
    name: &str,
    busy: Option<Range>,
    asked: Policy,
    placer: &Placer<F>,
) -> Status
    requires may { policy.MayChoose (F.pre placer.now) }
    requires chooses { policy.Chooses (F.post placer.now) }
    ensures ran { policy.Follows (F.post placer.now) (choice asked) →
        RanLoad name.now busy asked (D.seen folder.old) (D.seen folder.new)
        (K.seen output.old) (K.seen output.new) result }
    ensures unasked { Unasked name.now folder.old folder.new }
{
    match load(alloc, folder, name, busy, asked, placer) {
        Ok(loader) => start_and_write(alloc, &loader, output),
        Err(stop) => refuse(alloc, stop, output),
    }
}

/// Loads a program with its libraries where the policy says. A position-independent program is loaded as the one that it becomes where the policy places it.
pub(crate) fn load_and_write<D: Folder, K: Sink>(
    alloc: Global,
    folder: &mut D,
    output: &mut K,
    name: &str,
    busy: Option<Range>,
    asked: Policy,
) -> Status
    ensures ran { RanLoad name.now busy asked (D.seen folder.old) (D.seen folder.new)
        (K.seen output.old) (K.seen output.new) result }
    ensures unasked { Unasked name.now folder.old folder.new }
{
    let placer = Placer::new(|holes: &Holes, span: u64, align: u64| chosen(
        asked, holes, span, align,
    ));
    load_placed(alloc, folder, output, name, busy, asked, &placer)
}

/// Does what the words after the program's name ask for.
///
/// The answer is a definition over the words, the folder's files and the bytes of the input: a status and a text for the output. `Done`, `Differs`, `Usage` and `Refused` come only with the whole of it. A fault comes only where the count of its object rose: `ReadFault` and `DiskFault` before anything was written, `WriteFault` after some first bytes of the text. `NoMemory` may come at any time before anything was written. A count of faults rises only where the status is the fault of its object.
///
/// `-a` without `-n`, `-u`, `--install`, `--make`, `--remove`, `--fix` and `--unfix` write to the folder, and no other command does. Each recovers it first, and then makes all of its changes or none. After `Done` the only image of the folder is the one with the changes; after `Refused` and `ReadFault` the recovered one; after `WriteFault` the one or the other, as the answer has it. After `DiskFault` and `NoMemory` the folder stands for the files before, after `DiskFault` perhaps for those with all changes. An image that a crash on the way leaves stands for the files before or for those after; until the first settle that is done it may be one of the images at the start.
///
/// Only `--install`, `--make` and `--weave` read the input. Words that are no command, `--demo`, and a name of another command that is not valid, ask neither folder nor input.
///
/// `now` is the moment of the run in seconds since 1970: the stamps that `-a` gives are at least so great.
pub fn run<D: Folder, S: Source, K: Sink>(
    alloc: Global,
    words: &[String],
    folder: &mut D,
    input: &mut S,
    output: &mut K,
    now: u32,
) -> Status
    ensures ran { Ran (command now (map string_bytes words.now))
        (outside (D.seen folder.old) (S.seen input.old) (K.seen output.old))
        (outside (D.seen folder.new) (S.seen input.new) (K.seen output.new)) result }
    // No call is made of a folder that is not to be asked, nor of an input that is not to be read.
    ensures unasked { asks_folder (command now (map string_bytes words.now)) ≡ false →
        folder.new ≡ folder.old }
    ensures unread { reads_input (command now (map string_bytes words.now)) ≡ false →
        input.new ≡ input.old }
{
    match read_words(alloc, words, now) {
        Ok(Command::Load { name, busy, policy }) => {
            load_and_write(alloc, folder, output, name.as_str(), busy, policy)
        }
        Ok(Command::All { asked, detail }) => {
            let prelinked = prelink(alloc, folder, &asked, detail);
            end_with(alloc, prelinked, output)
        }
        Ok(Command::Preview { asked, detail }) => {
            let previewed = preview(alloc, folder, &asked, detail);
            end_with(alloc, previewed, output)
        }
        Ok(Command::UndoAll) => {
            let undone = undo(alloc, folder, &Run::UndoAll);
            end_undone(alloc, undone, output)
        }
        Ok(Command::Undo { names }) => {
            let run = Run::Undo { names };
            let undone = undo(alloc, folder, &run);
            end_undone(alloc, undone, output)
        }
        Ok(Command::Store { name, content }) => {
            let stored = store(alloc, name.as_str(), content, folder, input);
            end_with(alloc, stored, output)
        }
        Ok(Command::Remove { name }) => {
            let removed = remove(alloc, folder, name.as_str());
            end_with(alloc, removed, output)
        }
        Ok(Command::Fix { name, policy }) => {
            let title = name.as_str();
            let fixed = fix(alloc, folder, title, policy);
            end_fixed(alloc, title, fixed, output)
        }
        Ok(Command::Unfix { name }) => {
            let unfixed = unfix(alloc, folder, name.as_str());
            end_with(alloc, unfixed, output)
        }
        Ok(Command::Verify { name }) => {
            let verified = verify(alloc, folder, name.as_str());
            end_verified(alloc, verified, output)
        }
        Ok(Command::Print) => {
            let printed = print(alloc, folder);
            end_with(alloc, printed, output)
        }
        Ok(Command::Weave) => {
            let woven = weave(alloc, folder, input);
            end_with(alloc, woven, output)
        }
        Ok(Command::Order { name, detail }) => {
            let ordered = order(alloc, folder, name.as_str(), detail);
            end_with(alloc, ordered, output)
        }
        Ok(Command::Demo { number }) => {
            let made = demo(alloc, number);
            end_with(alloc, made, output)
        }
        Err(WordsFault::Usage) => finish(output, USAGE, Status::Usage),
        Err(WordsFault::NoMemory) => Status::NoMemory,
    }
}
