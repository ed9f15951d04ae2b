//! The bench program's commands, served: bytes in, lines out.
#![tactic(auto)]

ghost use Rattle.std.specs.Prelude.{◌≡◌, ℕ, ◌<◌, ◌≤◌, List, ◌++◌, length, take, IfOk, string_bytes, OnOk};
ghost use Rattle.std.specs.Io.KnownBytes.{Consumes, IsAtEnd};
ghost use Rattle.command.specs.Commands.{meant};
ghost use Rattle.patch.specs.Patches.{few};
ghost use Rattle.refusal.specs.Refusals.{number, code_of};
ghost use Rattle.console.specs.Lines.{line};
ghost use Rattle.console.specs.Sessions.{NextServed, Turn, Session, Serves, written};

use command::format::Format;
use command::{Command, Reader};
use index::pivot_index::PivotIndex;
use metric::channels::ChannelSet;
use refusal::{Refusal, code};
use std::io::Read;
use std::{fmt, io};

/// Reads until the buffer is full or the input ends: how many bytes came, which are its first. It has no allocator.
pub fn fill<R: Read>(source: &mut R, buffer: &mut [u8]) -> io::Result<usize>
    ensures count { IfOk result (λ n. n ≤ length buffer.old) }
    ensures bytes { IfOk result (λ n. Consumes (R.remaining source.old) (R.remaining source.new) (take n buffer.new)) }
    ensures end { IfOk result (λ n. n < length buffer.old → IsAtEnd (R.remaining source.new)) }
{
    let mut len = 0;
    while len < buffer.len() {
        let got = source.read(&mut buffer[len..])?;
        if got == 0 {
            break;
        }
        len += got;
    }
    Ok(len)
}

/// Prints a letter and a number.
pub fn print_line(out: &mut String, letter: &str, number: u8) -> fmt::Result
    ensures { OnOk result (string_bytes out.new ≡ string_bytes out.old ++ line letter.now number) }
{
    write!(out, "{letter} {number}\n")?;
    Ok(())
}

/// Serves a command: the letter that answers it, and what it comes to. A search is not served, and changes nothing.
pub fn serve<S: ChannelSet>(
    index: &mut PivotIndex<S>,
    store: &mut [u8],
    command: Command,
) -> (&'static str, Result<(), Refusal>)
    ensures serves { Serves (few (S.models index.old.set)) (written index.old.counts store.old) (written index.new.counts store.new) (meant command.entry) result.0.now (code_of result.1) }
    ensures same { S.models index.new.set ≡ S.models index.old.set }
{
    match command {
        Command::Insert { accession, rows } => ("L", index.insert(store, accession, rows)),
        Command::Remove { accession } => ("U", index.remove(store, accession)),
        Command::AddPivot { channel, accession } => (
            "P",
            index.add_pivot(store, channel, accession),
        ),
        Command::RemovePivot { channel, pivot } => ("R", index.remove_pivot(store, channel, pivot)),
        Command::Nearest {
            aggregate: _,
            weights: _,
            k: _,
            radius: _,
            budget: _,
            rows: _,
        } => ("C", Ok(())),
    }
}

// The next command that is served.
fn next_command<'a>(reader: &mut Reader<'a>) -> Result<Option<Command<'a>>, Refusal>
    ensures next { NextServed reader.old.format reader.old.rest.now reader.new.rest.now result }
    ensures format { reader.new.format ≡ reader.old.format }
{
    if reader.peek().unwrap_or(0) == 0x43 {
        return Err(Refusal::UnknownCommand);
    }
    reader.next()
}

// Serves the next command and prints its line; or prints why there is none, or nothing at the end. Whether there may be more: nothing
// else comes of a turn, and so it is a truth and no `ControlFlow`.
fn turn<S: ChannelSet>(
    index: &mut PivotIndex<S>,
    store: &mut [u8],
    reader: &mut Reader,
    out: &mut String,
) -> Result<bool, fmt::Error>
    ensures same { S.models index.new.set ≡ S.models index.old.set }
    ensures format { reader.new.format ≡ reader.old.format }
    ensures turn { IfOk result (λ more. (printed : List ℕ) × Turn (few (S.models index.old.set)) reader.old.format (written index.old.counts store.old) (written index.new.counts store.new) reader.old.rest.now reader.new.rest.now printed more × (string_bytes out.new ≡ string_bytes out.old ++ printed)) }
{
    let next = match next_command(reader) {
        Ok(next) => next,
        Err(refusal) => {
            print_line(out, "?", refusal.number())?;
            return Ok(false);
        }
    };
    let Some(command) = next else {
        return Ok(false);
    };
    let (letter, outcome) = serve(index, store, command);
    print_line(out, letter, code(outcome))?;
    Ok(true)
}

/// Serves the commands of an input, one after another, and prints a line for each: its letter and 0 or its refusal's number. A command
/// that cannot be read prints `?` and its number, and ends the run. An error only for want of memory for the lines.
pub fn run<S: ChannelSet>(
    index: &mut PivotIndex<S>,
    store: &mut [u8],
    format: Format,
    input: &[u8],
    out: &mut String,
) -> fmt::Result
    ensures same { S.models index.new.set ≡ S.models index.old.set }
    ensures session { OnOk result ((printed : List ℕ) × Session (few (S.models index.old.set)) format (written index.old.counts store.old) input.now printed (written index.new.counts store.new) × (string_bytes out.new ≡ string_bytes out.old ++ printed)) }
{
    let mut reader = Reader::new(format, input);
    while turn(index, store, &mut reader, out)? {}
    Ok(())
}
