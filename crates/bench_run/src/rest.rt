// The bytes of a request that has not arrived whole.
ghost use Rattle.std.specs.Prelude.{◌≡◌, ◌++◌, ◌+◌, ◌≤◌, length, take, drop};

// Moves the bytes from a place on to the front, where the next ones follow them. They are told by two numbers, and not lent, since they
// are moved within the buffer.
pub fn keep_rest(buffer: &mut [u8], from: usize, rest: usize)
    requires { from + rest ≤ length buffer.old }
    ensures { buffer.new ≡ take rest (drop from buffer.old) ++ drop rest buffer.old }
{
    buffer.copy_within(from..from + rest, 0);
}
