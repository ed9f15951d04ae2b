//! The lines that answer commands.
ghost use Rattle.std.specs.Prelude.{◌≡◌, ◌≤◌, ◌++◌, length, take, string_bytes, OnOk};
ghost use Rattle.search.specs.Refusals.{Granted};
ghost use Rattle.search_console.specs.Lines.{summary, hit_line, hit_lines, search_lines};

use console::print_line;
use engine::records::{Answer, Neighbor};
use refusal::Refusal;
use std::fmt;

// Prints the first line of a granted search.
fn print_summary(out: &mut String, answer: Answer) -> fmt::Result
    ensures { OnOk result (string_bytes out.new ≡ string_bytes out.old ++ summary answer) }
{
    let finished = u8::from(answer.complete);
    write!(
        out,
        "C 0 {finished} {} {} {}\n",
        answer.named, answer.measured, answer.admitted
    )?;
    Ok(())
}

// Prints a hit.
fn print_hit(out: &mut String, hit: Neighbor) -> fmt::Result
    ensures { OnOk result (string_bytes out.new ≡ string_bytes out.old ++ hit_line hit) }
{
    write!(out, "N {} {}\n", hit.accession, hit.distance)?;
    Ok(())
}

// Prints hits in order.
fn print_hits(out: &mut String, hits: &[Neighbor]) -> fmt::Result
    ensures { OnOk result (string_bytes out.new ≡ string_bytes out.old ++ hit_lines hits.now) }
{
    for hit in hits {
        print_hit(out, *hit)?;
    }
    Ok(())
}

// The hits that a search named, at the front of its list.
fn named(answer: Answer, hits: &[Neighbor]) -> &[Neighbor]
    requires { answer.named ≤ length hits.now }
    ensures { result.now ≡ take answer.named hits.now }
{
    &hits[..usize::from(answer.named)]
}

// Prints the reply to a search: its refusal's number, or its summary and the hits that it named.
pub(crate) fn print_reply(
    out: &mut String,
    reply: Result<Answer, Refusal>,
    hits: &[Neighbor],
) -> fmt::Result
    requires { Granted reply (λ a. a.named ≤ length hits.now) }
    ensures { OnOk result (string_bytes out.new ≡ string_bytes out.old ++ search_lines reply hits.now) }
{
    match reply {
        Ok(answer) => {
            print_summary(out, answer)?;
            print_hits(out, named(answer, hits))
        }
        Err(refusal) => print_line(out, "C", refusal.number()),
    }
}
