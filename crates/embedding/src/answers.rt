//! Writing answers, one behind another. The place of the next goes from call to call: a writer that held the answers would need a clause at
//! each function that they are the same.
ghost use Rattle.std.specs.Prelude.{◌≡◌, ◌+◌, ◌*◌, ◌<◌, ◌≤◌, length};
ghost use Rattle.embedding.specs.Answers.{Wrote};

use engine::records::{Answer, Neighbor};

// Writes bytes; where the next are written.
pub(crate) fn put(answers: &mut [u8], at: usize, bytes: &[u8]) -> usize
    requires { at + length bytes.now ≤ length answers.old }
    ensures next { result ≡ at + length bytes.now }
    ensures wrote { Wrote at result answers.old answers.new }
{
    let end = at + bytes.len();
    answers[at..end].copy_from_slice(bytes);
    end
}

// A hit: accession number and distance, 6 bytes.
fn put_hit(answers: &mut [u8], at: usize, hit: Neighbor) -> usize
    requires { at + 6 ≤ length answers.old }
    ensures next { result ≡ at + 6 }
    ensures wrote { Wrote at result answers.old answers.new }
{
    let next = put(answers, at, &hit.accession.to_be_bytes());
    put(answers, next, &hit.distance.to_be_bytes())
}

// What a search came to: 10 bytes.
fn put_numbers(answers: &mut [u8], at: usize, answer: Answer) -> usize
    requires { at + 10 ≤ length answers.old }
    ensures next { result ≡ at + 10 }
    ensures wrote { Wrote at result answers.old answers.new }
{
    let next = put(answers, at, &u16::from(answer.complete).to_be_bytes());
    let next = put(answers, next, &answer.named.to_be_bytes());
    let next = put(answers, next, &answer.measured.to_be_bytes());
    put(answers, next, &answer.admitted.to_be_bytes())
}

// The hits, 6 bytes each.
fn put_hits(answers: &mut [u8], at: usize, hits: &[Neighbor]) -> usize
    requires { at + 6 * length hits.now ≤ length answers.old }
    ensures next { result ≡ at + 6 * length hits.now }
    ensures wrote { Wrote at result answers.old answers.new }
{
    let mut next = at;
    for hit in hits {
        next = put_hit(answers, next, *hit);
    }
    next
}

// The answer of a served search: its letter and 0, what it came to, and the hits.
pub(crate) fn put_answer(answers: &mut [u8], at: usize, answer: Answer, hits: &[Neighbor]) -> usize
    requires { at + 12 + 6 * length hits.now ≤ length answers.old }
    ensures next { result ≡ at + 12 + 6 * length hits.now }
    ensures wrote { Wrote at result answers.old answers.new }
{
    let next = put(answers, at, b"C\x00");
    let next = put_numbers(answers, next, answer);
    put_hits(answers, next, hits)
}
