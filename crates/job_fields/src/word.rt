// Reads numbers from bytes, low byte first.
ghost use Rattle.std.specs.Prelude.{◌≡◌, ◌+◌, ◌≤◌, length};
ghost use Rattle.job_fields.specs.Bytes.{word};

// Kept: `from_le_bytes` is a method of each type, so one function for both would need a trait with an impl for each.
#[tactic(auto, unfolding(crate::specs::Bytes::word))]
pub fn read_u16(bytes: &[u8], at: usize) -> u16
    requires { at + 2 ≤ length bytes.now }
    ensures { result ≡ word 2 bytes.now at }
{
    u16::from_le_bytes([bytes[at], bytes[at + 1]])
}

#[tactic(auto, unfolding(crate::specs::Bytes::word))]
pub(crate) fn read_u32(bytes: &[u8], at: usize) -> u32
    requires { at + 4 ≤ length bytes.now }
    ensures { result ≡ word 4 bytes.now at }
{
    u32::from_le_bytes([bytes[at], bytes[at + 1], bytes[at + 2], bytes[at + 3]])
}
