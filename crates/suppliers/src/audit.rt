//! What a recorder shows of code that is written for every metric.
ghost use Rattle.std.specs.Prelude.{◌≡◌, false};

use crate::recorder::Recorder;
use metric::channels::Single;
use patch::channel_distance;

/// After the distance of 1 and 2 is asked for, that of 1 and 3 has not been asked about: known before it is run.
pub fn asks_no_other() -> bool
    ensures { result ≡ false }
{
    let mut set = Single {
        metric: Recorder::new(),
    };
    let _ = channel_distance(&mut set, 0, &[1], &[2]);
    set.metric.was_asked(1, 3)
}
