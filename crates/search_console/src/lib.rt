//! The bench program's commands, served: bytes in, lines out. What is lent goes from function to function in parameters: a struct of
//! several `&mut` would need a clause at each that each is the same.
#![tactic(auto)]

ghost use Rattle.std.specs.Prelude.{◌≡◌, ℕ, List, ◌++◌, length, IfOk, string_bytes, OnOk};
ghost use Rattle.patch.specs.Patches.{few};
ghost use Rattle.search_console.specs.Promises.{Promised};
ghost use Rattle.console.specs.Sessions.{written};
ghost use Rattle.search_console.specs.Sessions.{Turn, Session, room_of};

use command::Reader;
use command::format::Format;
use console::print_line;
use engine::records::{Candidate, Neighbor};
use index::pivot_index::PivotIndex;
use metric::channels::ChannelSet;
use queue::rank::Upper;
use serve::serve;
use std::fmt;

mod print;
mod serve;

// Serves the next command and prints its lines; or prints why there is none, or nothing at the end. Whether there may be more, as in
// `console`, whose turn has no lists to lend.
fn turn<S: ChannelSet>(
    index: &mut PivotIndex<S>,
    store: &mut [u8],
    reader: &mut Reader,
    hits: &mut [Neighbor],
    candidates: &mut [Candidate],
    uppers: &mut [Upper],
    out: &mut String,
) -> Result<bool, fmt::Error>
    ensures same { S.models index.new.set ≡ S.models index.old.set }
    ensures format { reader.new.format ≡ reader.old.format }
    ensures turn { IfOk result (λ more. (printed : List ℕ) × Turn (few (S.models index.old.set)) reader.old.format (room_of (length hits.old) (length candidates.old) (length uppers.old)) (written index.old.counts store.old) (written index.new.counts store.new) reader.old.rest.now reader.new.rest.now printed more × (string_bytes out.new ≡ string_bytes out.old ++ printed)) }
{
    let next = match reader.next() {
        Ok(next) => next,
        Err(refusal) => {
            print_line(out, "?", refusal.number())?;
            return Ok(false);
        }
    };
    let Some(command) = next else {
        return Ok(false);
    };
    serve(index, store, command, hits, candidates, uppers, out)?;
    Ok(true)
}

/// Serves the commands of an input, one after another, and prints for each its letter and 0 or its refusal's number. A granted search
/// adds to its line whether it has finished, and how many patches it named, channels it measured and patches it admitted; then a line
/// for each hit, with its number and its distance. A command that cannot be read prints `?` and its number, and ends the run. `hits`,
/// `candidates` and `uppers` are lent to the searches. An error only for want of memory for the lines.
///
/// Over any bytes, the lines of a search come of a run of the step rule over what the store holds at that moment. Where new and a history
/// of calls have led to this index and this store, each granted search keeps its promise over what the history and the commands served
/// before it hold.
pub fn run<S: ChannelSet>(
    index: &mut PivotIndex<S>,
    store: &mut [u8],
    format: Format,
    input: &[u8],
    hits: &mut [Neighbor],
    candidates: &mut [Candidate],
    uppers: &mut [Upper],
    out: &mut String,
) -> fmt::Result
    ensures same { S.models index.new.set ≡ S.models index.old.set }
    ensures session { OnOk result ((printed : List ℕ) × Session (few (S.models index.old.set)) format (room_of (length hits.old) (length candidates.old) (length uppers.old)) (written index.old.counts store.old) input.now printed (written index.new.counts store.new) × (string_bytes out.new ≡ string_bytes out.old ++ printed)) }
    ensures promised { OnOk result (Promised (S.models index.old.set) format (room_of (length hits.old) (length candidates.old) (length uppers.old)) (written index.old.counts store.old) (written index.new.counts store.new) input.now (string_bytes out.old) (string_bytes out.new)) }
{
    let mut reader = Reader::new(format, input);
    while turn(index, store, &mut reader, hits, candidates, uppers, out)? {}
    Ok(())
}
