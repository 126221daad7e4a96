// A schedule as a run of bytes: two for each entry, the lowest first.
ghost use Rattle.std.specs.Prelude.{◌≡◌, ◌+◌, ◌*◌, ◌<◌, length};
ghost use Rattle.tables.specs.Bytes.{number_at, put_at};

// The number of two bytes at place i.
pub(crate) fn number2(bytes: &[u8], i: usize) -> u16
    requires { i * 2 + 1 < length bytes.now }
    ensures { result ≡ number_at 2 bytes.now (i * 2) }
{
    let at = i * 2;
    u16::from_le_bytes([bytes[at], bytes[at + 1]])
}

// An entry written at its place, as two bytes.
pub(crate) fn put2(bytes: &mut [u8], i: usize, entry: u16)
    requires { i * 2 + 1 < length bytes.old }
    ensures { bytes.new ≡ put_at 2 bytes.old (i * 2) entry }
{
    let at = i * 2;
    bytes[at..at + 2].copy_from_slice(&entry.to_le_bytes());
}
