// A pattern and its eight bytes.
ghost use Rattle.std.specs.Prelude.{◌≡◌};
ghost use Rattle.meaning.specs.Bytes.{big_endian, little_endian, read_end, write_end};
ghost use Rattle.ends_in_bytes.specs.ByteOrderMeaning.{order_of};

#[derive(Clone, Copy)]
pub enum ByteOrder {
    Big,
    Little,
}

// The end that eight bytes stand for. Each order is read by itself, so that an end costs one byte swap.
pub fn read_end(d: [u8; 8], order: ByteOrder) -> u64
    ensures { result ≡ read_end (order_of order) d }
{
    match order {
        ByteOrder::Big => u64::from_be_bytes(d),
        ByteOrder::Little => u64::from_le_bytes(d),
    }
}

// The eight bytes of an end in each order, the most significant first or last. Each is a function of its own: where both stood in the arms of
// a match, LLVM joined the two orders byte by byte, in place of one byte swap, and a call that writes an interval took 100 instructions more.
fn big(n: u64) -> [u8; 8]
    ensures { result ≡ write_end big_endian n }
{
    n.to_be_bytes()
}

fn little(n: u64) -> [u8; 8]
    ensures { result ≡ write_end little_endian n }
{
    n.to_le_bytes()
}

// The eight bytes of an end.
pub fn write_end(n: u64, order: ByteOrder) -> [u8; 8]
    ensures { result ≡ write_end (order_of order) n }
{
    match order {
        ByteOrder::Big => big(n),
        ByteOrder::Little => little(n),
    }
}
