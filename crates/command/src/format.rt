//! The lengths that the channels give to commands.

/// How many bytes of weights and of rows a command carries.
#[derive(Clone, Copy, PartialEq, Eq, Debug)]
pub struct Format {
    pub weights: u16,
    pub rows: u16,
}
