//! Commands to an index, read from bytes.
#![tactic(auto)]

ghost use Rattle.std.specs.Prelude.{◌≡◌, ℕ, ◌+◌, ◌<◌, [], ◌∷◌, ◌++◌, length, MatchOption, slice_index};
ghost use Rattle.big_endian.specs.Numbers.{be16, be32};
ghost use Rattle.command.specs.Commands.{Part, Operands, Behind, InFront, Next, Exact};

use big_endian::BigEndian;
use format::Format;
use refusal::Refusal;

pub mod format;

/// A command. Rows and weights are parts of the input that it was read from. An aggregate is the number that the input has, which may name
/// none: a reader answers what is written, and the search refuses it.
#[derive(Clone, Copy, PartialEq, Eq, Debug)]
pub enum Command<'a> {
    Insert {
        accession: u16,
        rows: &'a [u8],
    },
    Remove {
        accession: u16,
    },
    AddPivot {
        channel: u8,
        accession: u16,
    },
    RemovePivot {
        channel: u8,
        pivot: u8,
    },
    Nearest {
        aggregate: u8,
        weights: &'a [u8],
        k: u16,
        radius: u32,
        budget: u32,
        rows: &'a [u8],
    },
}

// The first n bytes, and what follows them; none where there are fewer.
fn split_part(bytes: &[u8], n: u16) -> Option<(&[u8], &[u8])>
    ensures { Part n bytes.now result }
{
    bytes.split_at_checked(usize::from(n))
}

fn read_insert<'a>(format: Format, bytes: &'a [u8]) -> Option<(Command<'a>, &'a [u8])>
    ensures { Operands format 0x4c (2 + format.rows) bytes.now result }
{
    let (accession, rest) = u16::split_front(bytes)?;
    let (rows, rest) = split_part(rest, format.rows)?;
    Some((Command::Insert { accession, rows }, rest))
}

fn read_remove<'a>(format: Format, bytes: &'a [u8]) -> Option<(Command<'a>, &'a [u8])>
    ensures { Operands format 0x55 2 bytes.now result }
{
    let (accession, rest) = u16::split_front(bytes)?;
    Some((Command::Remove { accession }, rest))
}

fn read_add_pivot<'a>(format: Format, bytes: &'a [u8]) -> Option<(Command<'a>, &'a [u8])>
    ensures { Operands format 0x50 3 bytes.now result }
{
    let (channel, rest) = u8::split_front(bytes)?;
    let (accession, rest) = u16::split_front(rest)?;
    Some((Command::AddPivot { channel, accession }, rest))
}

fn read_remove_pivot<'a>(format: Format, bytes: &'a [u8]) -> Option<(Command<'a>, &'a [u8])>
    ensures { Operands format 0x52 2 bytes.now result }
{
    let (channel, rest) = u8::split_front(bytes)?;
    let (pivot, rest) = u8::split_front(rest)?;
    Some((Command::RemovePivot { channel, pivot }, rest))
}

// How many neighbours, how far, and for how many measurements.
struct Limits {
    k: u16,
    radius: u32,
    budget: u32,
}

fn read_limits(bytes: &[u8]) -> Option<(Limits, &[u8])>
    ensures { MatchOption result (length bytes.now < 10) (λ p. (bytes.now ≡ be16 p.0.k ++ (be32 p.0.radius ++ (be32 p.0.budget ++ p.1.now))) × (length bytes.now ≡ 10 + length p.1.now)) }
{
    let (k, rest) = u16::split_front(bytes)?;
    let (radius, rest) = u32::split_front(rest)?;
    let (budget, rest) = u32::split_front(rest)?;
    Some((Limits { k, radius, budget }, rest))
}

fn read_nearest<'a>(format: Format, bytes: &'a [u8]) -> Option<(Command<'a>, &'a [u8])>
    ensures { Operands format 0x43 (11 + format.weights + format.rows) bytes.now result }
{
    let (aggregate, rest) = u8::split_front(bytes)?;
    let (weights, rest) = split_part(rest, format.weights)?;
    let (Limits { k, radius, budget }, rest) = read_limits(rest)?;
    let (rows, rest) = split_part(rest, format.rows)?;
    Some((
        Command::Nearest {
            aggregate,
            weights,
            k,
            radius,
            budget,
            rows,
        },
        rest,
    ))
}

// The command whose letter is `byte`, from the bytes behind it.
fn read_operands<'a>(
    format: Format,
    byte: u8,
    bytes: &'a [u8],
) -> Result<(Command<'a>, &'a [u8]), Refusal>
    ensures { Behind format byte bytes.now result }
{
    let found = match byte {
        0x4c => read_insert(format, bytes),
        0x55 => read_remove(format, bytes),
        0x50 => read_add_pivot(format, bytes),
        0x52 => read_remove_pivot(format, bytes),
        0x43 => read_nearest(format, bytes),
        _ => return Err(Refusal::UnknownCommand),
    };
    found.ok_or(Refusal::CutShort)
}

// The command at the front of an input, and what follows it; none where nothing is left.
fn read<'a>(format: Format, input: &'a [u8]) -> Result<Option<(Command<'a>, &'a [u8])>, Refusal>
    ensures { InFront format input.now result }
{
    let Some((byte, bytes)) = u8::split_front(input) else {
        return Ok(None);
    };
    Ok(Some(read_operands(format, byte, bytes)?))
}

/// Reads commands from an input, one after another.
#[derive(Drop)]
pub struct Reader<'a> {
    format: Format,
    rest: &'a [u8],
}

impl<'a> Reader<'a> {
    /// A reader at the front of an input.
    pub fn new(format: Format, input: &'a [u8]) -> Reader<'a>
        ensures { (result.format ≡ format) × (result.rest.now ≡ input.now) }
    {
        Reader {
            format,
            rest: input,
        }
    }

    /// The letter of the next command, whether it is one or not; none at the end of the input.
    pub fn peek(&self) -> Option<u8>
        ensures { MatchOption result (length self.now.rest.now ≡ 0) (λ byte. (0 < length self.now.rest.now) × (byte ≡ slice_index self.now.rest.now 0)) }
    {
        self.rest.first().copied()
    }

    /// The next command; none at the end of the input. Refused where the next byte is no command's letter (14) or the
    /// input ends inside the command (15); nothing is read then.
    #[tactic(auto, using(crate::proofs::Written::exact))]
    pub fn next(&mut self) -> Result<Option<Command<'a>>, Refusal>
        ensures next { Next self.old.format self.old.rest.now self.new.rest.now result }
        ensures exact { Exact self.old.format self.old.rest.now self.new.rest.now result }
        ensures format { self.new.format ≡ self.old.format }
    {
        let Some((command, rest)) = read(self.format, self.rest)? else {
            return Ok(None);
        };
        self.rest = rest;
        Ok(Some(command))
    }
}
