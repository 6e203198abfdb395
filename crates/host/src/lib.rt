// The calls for a host in C. Each reads one slice, writes the other, and returns the number plus 256 times the place; they stand on
// the requests and the codecs.
#![tactic(auto)]

ghost use Rattle.patterns.specs.Format.{binary64};
ghost use Rattle.meaning.specs.Bytes.{big_endian, little_endian};
ghost use Rattle.meaning.specs.Forms.{bare_form, decorated_form};
ghost use Rattle.meaning.specs.Requests.{BareRequest, DecoratedRequest, Codec};
ghost use Rattle.meaning.specs.ExactRequests.{ExactRequest};
ghost use Rattle.request_laws.specs.Calls.{Packed};

use lent_calls::packed;

// One operation on bare intervals: 33 bytes in, 16 out.
#[unsafe(no_mangle)]
pub extern "C" fn muenglavot_request_bare(input: &[u8], output: &mut [u8]) -> u32
    ensures { Packed (BareRequest binary64) input.now output.old result output.new }
{
    packed(requests::request_bare(input, output))
}

// One arithmetic operation on bare intervals, and which ends are exact: 33 bytes in, 18 out.
#[unsafe(no_mangle)]
pub extern "C" fn muenglavot_request_bare_exact(input: &[u8], output: &mut [u8]) -> u32
    ensures { Packed (ExactRequest binary64) input.now output.old result output.new }
{
    packed(exact_request::request_bare_exact(input, output))
}

// One operation on decorated intervals: 35 bytes in, 17 out.
#[unsafe(no_mangle)]
pub extern "C" fn muenglavot_request_decorated(input: &[u8], output: &mut [u8]) -> u32
    ensures { Packed (DecoratedRequest binary64) input.now output.old result output.new }
{
    packed(requests::request_decorated(input, output))
}

// One bare interval from big to little endian, 16 bytes each.
#[unsafe(no_mangle)]
pub extern "C" fn muenglavot_bare_be_to_le(input: &[u8], output: &mut [u8]) -> u32
    ensures { Packed (Codec binary64 bare_form big_endian little_endian) input.now output.old result output.new }
{
    packed(codecs::bare_be_to_le(input, output))
}

// One bare interval from little to big endian, 16 bytes each.
#[unsafe(no_mangle)]
pub extern "C" fn muenglavot_bare_le_to_be(input: &[u8], output: &mut [u8]) -> u32
    ensures { Packed (Codec binary64 bare_form little_endian big_endian) input.now output.old result output.new }
{
    packed(codecs::bare_le_to_be(input, output))
}

// One decorated interval from big to little endian, 17 bytes each.
#[unsafe(no_mangle)]
pub extern "C" fn muenglavot_decorated_be_to_le(input: &[u8], output: &mut [u8]) -> u32
    ensures { Packed (Codec binary64 decorated_form big_endian little_endian) input.now output.old result output.new }
{
    packed(codecs::decorated_be_to_le(input, output))
}

// One decorated interval from little to big endian, 17 bytes each.
#[unsafe(no_mangle)]
pub extern "C" fn muenglavot_decorated_le_to_be(input: &[u8], output: &mut [u8]) -> u32
    ensures { Packed (Codec binary64 decorated_form little_endian big_endian) input.now output.old result output.new }
{
    packed(codecs::decorated_le_to_be(input, output))
}
