// Parts of a slice and numbers in it; past the end there is nothing, and bytes there count as 0.
ghost use Rattle.std.specs.Prelude.{◌≡◌, drop};
ghost use Rattle.wire.specs.Bytes.{read_le};

// What stands from a position on.
pub fn from(s: &[u8], at: usize) -> &[u8]
    ensures { result.now ≡ drop at s.now }
{
    s.get(at..).unwrap_or(&[])
}

// Stays: short and long are two functions (d); as one, each call would name the type, and the one would tell the types apart.
// The number of 16 bits at a position.
pub fn short(s: &[u8], at: usize) -> u16
    ensures { result ≡ read_le 2 s.now at }
{
    wire::read_le::<2>(s, at) as u16
}

// The number of 32 bits at a position.
pub fn long(s: &[u8], at: usize) -> u32
    ensures { result ≡ read_le 4 s.now at }
{
    wire::read_le::<4>(s, at) as u32
}
