// Numbers of one or two bytes in a record. A byte that is not there counts as 0.
ghost use Rattle.std.specs.Prelude.{◌≡◌, ◌+◌, ◌<◌, ◌≤◌, length, get_or, drop};
ghost use Rattle.rules.specs.Bytes.{little, numbers};
ghost use Rattle.records.specs.Inside.{Sizes, Held};

#[inline(always)]
fn byte_at(b: &[u8], at: usize) -> u8
    ensures { result ≡ get_or b.now at 0 }
{
    b.get(at).copied().unwrap_or(0)
}

// The number of one or two bytes at a place.
#[inline(always)]
pub(crate) fn number_at(b: &[u8], at: usize, size: usize) -> u32
    requires { (1 ≤ size) × (size ≤ 2) × (at ≤ length b.now + 64) }
    ensures { (result ≡ little size (drop at b.now)) × (result < 65536) }
{
    let low = byte_at(b, at);
    if size < 2 {
        return u32::from(low);
    }
    u32::from(u16::from_le_bytes([low, byte_at(b, at + 1)]))
}

// Numbers of the given sizes, one after the other, from a place on; zeros after them. (In an array of six: fixed memory.)
#[inline(always)]
pub(crate) fn numbers_at(b: &[u8], at: usize, sizes: &[u8]) -> [u32; 6]
    requires sizes { Sizes sizes.now }
    requires at_in_bounds { at ≤ length b.now + 32 }
    ensures { Held (numbers sizes.now (drop at b.now)) result }
{
    let mut read = [0u32; 6];
    let mut place = at;
    for j in 0..sizes.len() {
        let size = sizes[j] as usize;
        read[j] = number_at(b, place, size);
        place += size;
    }
    read
}
