//! Writes on the bytes of a store, at an address: the store has no length but its own.
ghost use Rattle.std.specs.Prelude.{◌≡◌, ◌+◌, ◌≤◌, length, replicate};
ghost use Rattle.big_endian.specs.Numbers.{be16};
ghost use Rattle.index.specs.Bytes.{put, part};
ghost use Rattle.index.specs.Steps.{moved};

// Writes `new` over the store from `at` on.
pub fn put_bytes(store: &mut [u8], at: usize, new: &[u8])
    requires { at + length new.now ≤ length store.old }
    ensures { store.new ≡ put at new.now store.old }
{
    let end = at + new.len();
    store[at..end].copy_from_slice(new);
}

// Writes a number of two bytes.
pub fn put_u16(store: &mut [u8], at: usize, n: u16)
    requires { at + 2 ≤ length store.old }
    ensures { store.new ≡ put at (be16 n) store.old }
{
    let bytes = n.to_be_bytes();
    put_bytes(store, at, &bytes);
}

// Writes n zeros.
pub fn put_zeros(store: &mut [u8], at: usize, n: usize)
    requires { at + n ≤ length store.old }
    ensures { store.new ≡ put at (replicate n 0) store.old }
{
    store[at..at + n].fill(0);
}

// Copies n bytes from `from` on to `to`; the two parts may overlap.
pub fn copy_part(store: &mut [u8], from: usize, to: usize, n: usize)
    requires source { from + n ≤ length store.old }
    requires target { to + n ≤ length store.old }
    ensures { store.new ≡ put to (part from n store.old) store.old }
{
    store.copy_within(from..from + n, to);
}

// Moves n bytes from `from` on to `to`, and leaves zeros.
pub fn move_part(store: &mut [u8], from: usize, to: usize, n: usize)
    requires source { from + n ≤ length store.old }
    requires target { to + n ≤ length store.old }
    ensures { store.new ≡ moved from to n store.old }
{
    copy_part(store, from, to, n);
    put_zeros(store, from, n);
}
