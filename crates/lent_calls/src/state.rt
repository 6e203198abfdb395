// A state as the answer of a call.
ghost use Rattle.std.specs.Prelude.{◌≡◌, ◌<◌, ◌≤◌, length};
ghost use Rattle.meaning.specs.Requests.{write_state};

// The state number, then zero bytes, over the whole output of a bare or a decorated call.
pub fn write_state(state: u8, output: &mut [u8])
    requires { (0 < length output.old) × (length output.old ≤ 17) }
    ensures { output.new ≡ write_state (length output.old) state }
{
    output.fill(0);
    output[0] = state;
}
