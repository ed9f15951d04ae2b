//! An index over eight wide channels: the four built metrics twice, on rows of 256 bytes; a function for each name that C calls.
ghost use Rattle.std.specs.Prelude.{◌≡◌, ◌<◌, ◌≤◌, length};
ghost use Rattle.embedding.specs.Answers.{Wrote};

use crate::memory::{begin, size};
use crate::session::serve_in;
use bench::{Four, four};
use command::format::Format;
use metric::channels::Pair;
use refusal::code;

// One weight for each channel, and the bytes of a patch.
const FORMAT: Format = Format {
    weights: 8,
    rows: 2048,
};

fn wide() -> Pair<Four, Four> {
    Pair {
        first: four(255, 255, 255, 255),
        second: four(255, 255, 255, 255),
    }
}

/// How many bytes an index of that many slots takes; 0 where there are more than 4,096.
#[unsafe(no_mangle)]
pub extern "C" fn embedding_wide_size(capacity: u16) -> usize {
    size(&wide(), capacity).unwrap_or(0)
}

/// Begins an index of no patches: 0, or the number of the refusal, 12, which changes nothing.
#[unsafe(no_mangle)]
pub extern "C" fn embedding_wide_new(memory: &mut [u8], capacity: u16) -> u8 {
    code(begin(wide(), memory, capacity))
}

/// Serves commands and writes their answers, one behind another; how many bytes. A command for whose answer there is no room is not
/// served, nor any behind it. Where the memory holds no index, nothing is served.
#[unsafe(no_mangle)]
pub extern "C" fn embedding_wide_serve(
    memory: &mut [u8],
    commands: &[u8],
    answers: &mut [u8],
) -> usize
    ensures wrote { Wrote 0 result answers.old answers.new }
    ensures short { length memory.old < 16 → result ≡ 0 }
{
    serve_in(wide(), FORMAT, memory, commands, answers)
}
