//! Where the first line of bytes ends.
ghost use Rattle.std.specs.Prelude.{◌≡◌, ◌≤◌, length};
ghost use Rattle.std.specs.List.{take_while};
ghost use Rattle.rm_outside.specs.Lines.{is_inside_line};

/// How many bytes stand before the first byte 0A, or in all.
pub(crate) fn line_length(bytes: &[u8]) -> usize
    ensures value { result ≡ length (take_while is_inside_line bytes.now) }
    ensures within { result ≤ length bytes.now }
{
    bytes.iter().take_while(|b| **b != b'\n').count()
}
