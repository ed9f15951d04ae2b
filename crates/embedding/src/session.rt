//! Commands served, one after another. What is lent goes from function to function in parameters: a struct of several `&mut` would need a
//! clause at each that each is the same.
ghost use Rattle.std.specs.Prelude.{◌≡◌, ◌+◌, ◌*◌, ◌<◌, ◌≤◌, min, length, IfOk, MatchOption};
ghost use Rattle.embedding.specs.Answers.{Wrote};
ghost use Rattle.embedding.specs.Sessions.{reached};

use crate::answers::{put, put_answer};
use crate::memory::{open, save};
use aggregate::Choice;
use command::format::Format;
use command::{Command, Reader};
use engine::records::{Answer, Candidate, Neighbor};
use index::pivot_index::PivotIndex;
use metric::channels::ChannelSet;
use queue::rank::Upper;
use refusal::{Refusal, code};
use search::{Query, nearest};
use std::ops::ControlFlow;

// A question of a command, as it was read: its aggregate is a number, which may name none.
#[derive(Clone, Copy)]
struct Asked<'a> {
    aggregate: u8,
    weights: &'a [u8],
    k: u16,
    radius: u32,
    budget: u32,
    rows: &'a [u8],
}

// Searches; the hits are at the front of `hits`.
fn ask<S: ChannelSet>(
    index: &mut PivotIndex<S>,
    store: &[u8],
    asked: Asked,
    hits: &mut [Neighbor],
    candidates: &mut [Candidate],
    uppers: &mut [Upper],
) -> Result<Answer, Refusal>
    ensures { IfOk result (λ a. a.named ≤ length hits.old) }
{
    let query = Query {
        rows: asked.rows,
        weights: asked.weights,
        aggregate: Choice::try_from(asked.aggregate)?,
        k: asked.k,
        radius: asked.radius,
    };
    nearest(index, store, &query, asked.budget, hits, candidates, uppers)
}

// Serves a search and writes its answer; where the next is written.
fn serve_search<S: ChannelSet>(
    index: &mut PivotIndex<S>,
    store: &[u8],
    asked: Asked,
    answers: &mut [u8],
    at: usize,
    hits: &mut [Neighbor],
    candidates: &mut [Candidate],
    uppers: &mut [Upper],
) -> usize
    requires { at + 12 + 6 * length hits.old ≤ length answers.old }
    ensures { Wrote at result answers.old answers.new }
{
    match ask(index, store, asked, hits, candidates, uppers) {
        Ok(answer) => put_answer(answers, at, answer, &hits[0..answer.named as usize]),
        Err(refusal) => put(answers, at, &[b'C', refusal.number()]),
    }
}

// So many records, as far as there is room.
fn within(n: u16, room: usize) -> usize
    ensures { result ≡ min n room }
{
    (n as usize).min(room)
}

// Serves a command and writes its answer; where the next is written, or none where there is no room for the answer: the command is then
// not served.
fn serve<S: ChannelSet>(
    index: &mut PivotIndex<S>,
    store: &mut [u8],
    command: Command,
    answers: &mut [u8],
    at: usize,
    hits: &mut [Neighbor],
    candidates: &mut [Candidate],
    uppers: &mut [Upper],
) -> Option<usize>
    requires { at ≤ length answers.old }
    ensures { MatchOption result (answers.new ≡ answers.old) (λ n. Wrote at n answers.old answers.new) }
{
    let room = answers.len() - at;
    if room < 2 {
        return None;
    }
    match command {
        Command::Insert { accession, rows } => {
            let number = code(index.insert(store, accession, rows));
            Some(put(answers, at, &[b'L', number]))
        }
        Command::Remove { accession } => {
            let number = code(index.remove(store, accession));
            Some(put(answers, at, &[b'U', number]))
        }
        Command::AddPivot { channel, accession } => {
            let number = code(index.add_pivot(store, channel, accession));
            Some(put(answers, at, &[b'P', number]))
        }
        Command::RemovePivot { channel, pivot } => {
            let number = code(index.remove_pivot(store, channel, pivot));
            Some(put(answers, at, &[b'R', number]))
        }
        Command::Nearest {
            aggregate,
            weights,
            k,
            radius,
            budget,
            rows,
        } => {
            let held = index.counts.held;
            let n = within(k.min(held), hits.len());
            if room < 12 + 6 * n {
                return None;
            }
            let asked = Asked {
                aggregate,
                weights,
                k,
                radius,
                budget,
                rows,
            };
            // a search zeroes its scratch, so it is lent no more than it needs
            let waiting = within(held, candidates.len());
            let kept = within(held, uppers.len());
            Some(serve_search(
                index,
                store,
                asked,
                answers,
                at,
                &mut hits[0..n],
                &mut candidates[0..waiting],
                &mut uppers[0..kept],
            ))
        }
    }
}

// Serves the next command, if there is one and room for its answer; where the next answer is written, and whether there may be one. A
// command that cannot be read is answered by `?` and why, and ends it.
fn turn<S: ChannelSet>(
    index: &mut PivotIndex<S>,
    store: &mut [u8],
    reader: &mut Reader,
    answers: &mut [u8],
    at: usize,
    hits: &mut [Neighbor],
    candidates: &mut [Candidate],
    uppers: &mut [Upper],
) -> ControlFlow<usize, usize>
    requires { at ≤ length answers.old }
    ensures { Wrote at (reached result) answers.old answers.new }
{
    match reader.next() {
        Ok(Some(command)) => match serve(
            index, store, command, answers, at, hits, candidates, uppers,
        ) {
            Some(next) => ControlFlow::Continue(next),
            None => ControlFlow::Break(at),
        },
        Ok(None) => ControlFlow::Break(at),
        Err(_) if answers.len() - at < 2 => ControlFlow::Break(at),
        Err(refusal) => ControlFlow::Break(put(answers, at, &[b'?', refusal.number()])),
    }
}

// Serves commands, one after another; how many bytes of the answers are written. A command takes a byte at least, so there are no more
// commands than bytes.
pub(crate) fn run<S: ChannelSet>(
    index: &mut PivotIndex<S>,
    store: &mut [u8],
    format: Format,
    commands: &[u8],
    answers: &mut [u8],
    hits: &mut [Neighbor],
    candidates: &mut [Candidate],
    uppers: &mut [Upper],
) -> usize
    ensures { Wrote 0 result answers.old answers.new }
{
    let mut reader = Reader::new(format, commands);
    let mut len: usize = 0;
    for _ in 0..commands.len() {
        match turn(
            index,
            store,
            &mut reader,
            answers,
            len,
            hits,
            candidates,
            uppers,
        ) {
            ControlFlow::Continue(next) => len = next,
            ControlFlow::Break(end) => return end,
        }
    }
    len
}

// How many patches a search works on at most.
const SLOTS: usize = 4096;

// Serves commands on the index in a memory; how many bytes of the answers are written. None where the memory holds no index.
pub(crate) fn serve_in<S: ChannelSet + Drop>(
    set: S,
    format: Format,
    memory: &mut [u8],
    commands: &[u8],
    answers: &mut [u8],
) -> usize
    ensures wrote { Wrote 0 result answers.old answers.new }
    ensures short { length memory.old < 16 → result ≡ 0 }
{
    if memory.len() < 16 {
        return 0;
    }
    let Some(mut index) = open(set, memory) else {
        return 0;
    };
    let mut hits = [Neighbor::BLANK; SLOTS];
    let mut candidates = [Candidate::BLANK; SLOTS];
    let mut uppers = [Upper(0); SLOTS];
    let len = run(
        &mut index,
        &mut memory[16..],
        format,
        commands,
        answers,
        &mut hits,
        &mut candidates,
        &mut uppers,
    );
    save(memory, &index.counts);
    len
}
