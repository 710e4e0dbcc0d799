//! Numbers with the high byte first, and blocks of bytes, read from the front of lent bytes.
ghost use Rattle.std.specs.Prelude.{◌≡◌, ◌≤◌, ℕ};
ghost use Rattle.std.proofs.Common.{rules};
ghost use Rattle.wire.specs.Formats.{Reads};
ghost use Rattle.wire.specs.Numbers.{block as block_f, number as number_f, version as version_f, big_endian, bytes_of};

use model::fault::Fault;

/// A number that is written in so many bytes, the high byte first. Each type has conversions of its own, which no trait of the library joins.
pub trait Number<const SIZE: usize>: Copy {
    ghost value: { Self → ℕ };

    fn from_bytes(bytes: [u8; SIZE]) -> Self
        ensures { value result ≡ big_endian bytes.entry };

    fn to_bytes(self) -> [u8; SIZE]
        ensures { result ≡ bytes_of SIZE (value self) };

    // An array may not be larger than memory.
    ghost small: { SIZE ≤ 8 };
}

impl Number<1> for u8 {
    ghost value = { λ n. n };

    ghost small = { Prim.search rules };

    fn from_bytes(bytes: [u8; 1]) -> u8
        ensures { result ≡ big_endian bytes }
    {
        u8::from_be_bytes(bytes)
    }

    fn to_bytes(self) -> [u8; 1]
        ensures { result ≡ bytes_of 1 self }
    {
        u8::to_be_bytes(self)
    }
}

impl Number<2> for u16 {
    ghost value = { λ n. n };

    ghost small = { Prim.search rules };

    fn from_bytes(bytes: [u8; 2]) -> u16
        ensures { result ≡ big_endian bytes }
    {
        u16::from_be_bytes(bytes)
    }

    fn to_bytes(self) -> [u8; 2]
        ensures { result ≡ bytes_of 2 self }
    {
        u16::to_be_bytes(self)
    }
}

impl Number<4> for u32 {
    ghost value = { λ n. n };

    ghost small = { Prim.search rules };

    fn from_bytes(bytes: [u8; 4]) -> u32
        ensures { result ≡ big_endian bytes }
    {
        u32::from_be_bytes(bytes)
    }

    fn to_bytes(self) -> [u8; 4]
        ensures { result ≡ bytes_of 4 self }
    {
        u32::to_be_bytes(self)
    }
}

impl Number<8> for u64 {
    ghost value = { λ n. n };

    ghost small = { Prim.search rules };

    fn from_bytes(bytes: [u8; 8]) -> u64
        ensures { result ≡ big_endian bytes }
    {
        u64::from_be_bytes(bytes)
    }

    fn to_bytes(self) -> [u8; 8]
        ensures { result ≡ bytes_of 8 self }
    {
        u64::to_be_bytes(self)
    }
}

/// A number of the type's size.
pub fn read_number<T: Number<SIZE>, const SIZE: usize>(bytes: &[u8]) -> Result<(T, &[u8]), Fault>
    ensures { Reads T.value result ((number_f SIZE).read bytes.now) }
{
    let (head, rest) = read_block::<SIZE>(bytes)?;
    Ok((T::from_bytes(*head), rest))
}

/// A version: four bytes, not 0.
pub fn read_version(bytes: &[u8]) -> Result<(u32, &[u8]), Fault>
    ensures { Reads (λ x. x) result (version_f.read bytes.now) }
{
    let (version, rest) = read_number::<u32, 4>(bytes)?;
    if version == 0 {
        return Err(Fault::OutOfRange);
    }
    Ok((version, rest))
}

/// A block of so many bytes.
pub fn read_block<const SIZE: usize>(bytes: &[u8]) -> Result<(&[u8; SIZE], &[u8]), Fault>
    ensures { Reads (λ x. x.now) result ((block_f SIZE).read bytes.now) }
{
    bytes.split_first_chunk::<SIZE>().ok_or(Fault::Malformed)
}

/// So many bytes.
pub fn read_sized(bytes: &[u8], size: u64) -> Result<(&[u8], &[u8]), Fault>
    ensures { Reads (λ p. p.now) result ((block_f size).read bytes.now) }
{
    if (bytes.len() as u64) < size {
        return Err(Fault::Malformed);
    }
    Ok(bytes.split_at(size as usize))
}
