//! Commands, served one at a time.
ghost use Rattle.std.specs.Prelude.{◌≡◌, ℕ, ◌≤◌, List, ◌++◌, length, string_bytes, OnOk};
ghost use Rattle.command.specs.Commands.{meant};
ghost use Rattle.patch.specs.Patches.{few};
ghost use Rattle.search.specs.Refusals.{Granted};
ghost use Rattle.console.specs.Sessions.{written};
ghost use Rattle.search_console.specs.Sessions.{Replies, Serves, room_of};

use crate::print::print_reply;
use aggregate::Choice;
use command::Command;
use console::print_line;
use engine::records::{Answer, Candidate, Neighbor};
use index::pivot_index::PivotIndex;
use metric::channels::ChannelSet;
use queue::rank::Upper;
use refusal::{Refusal, code};
use search::{Query, nearest};
use std::fmt;

// Searches as a command asks. What it asks comes as it was read, its aggregate as a number, which may name none.
fn find<'a, S: ChannelSet>(
    index: &mut PivotIndex<S>,
    store: &[u8],
    aggregate: u8,
    weights: &'a [u8],
    k: u16,
    radius: u32,
    budget: u32,
    rows: &'a [u8],
    hits: &mut [Neighbor],
    candidates: &mut [Candidate],
    uppers: &mut [Upper],
) -> Result<Answer, Refusal>
    ensures replies { Replies (few (S.models index.old.set)) (room_of (length hits.old) (length candidates.old) (length uppers.old)) (written index.old.counts store.now) aggregate weights.now k radius budget rows.now result hits.old hits.new }
    ensures within { Granted result (λ a. a.named ≤ length hits.new) }
    ensures counts { index.new.counts ≡ index.old.counts }
    ensures same { S.models index.new.set ≡ S.models index.old.set }
{
    let query = Query {
        rows,
        weights,
        aggregate: Choice::try_from(aggregate)?,
        k,
        radius,
    };
    nearest(index, store, &query, budget, hits, candidates, uppers)
}

// Serves a command and prints the lines that answer it.
pub(crate) fn serve<S: ChannelSet>(
    index: &mut PivotIndex<S>,
    store: &mut [u8],
    command: Command,
    hits: &mut [Neighbor],
    candidates: &mut [Candidate],
    uppers: &mut [Upper],
    out: &mut String,
) -> fmt::Result
    ensures serves { OnOk result ((said : List ℕ) × Serves (few (S.models index.old.set)) (room_of (length hits.old) (length candidates.old) (length uppers.old)) (written index.old.counts store.old) (written index.new.counts store.new) (meant command.entry) said × (string_bytes out.new ≡ string_bytes out.old ++ said)) }
    ensures same { S.models index.new.set ≡ S.models index.old.set }
{
    match command {
        Command::Nearest {
            aggregate,
            weights,
            k,
            radius,
            budget,
            rows,
        } => {
            let reply = find(
                index, store, aggregate, weights, k, radius, budget, rows, hits, candidates, uppers,
            );
            print_reply(out, reply, hits)
        }
        change => {
            let (letter, outcome) = console::serve(index, store, change);
            print_line(out, letter, code(outcome))
        }
    }
}
