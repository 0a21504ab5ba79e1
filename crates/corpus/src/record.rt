//! The parts of a record, read from standard input.
use reading::full::read_full;
use std::io;
use std::io::Read;

/// Why a record gives no case.
#[derive(Debug, Drop)]
pub enum RecordError {
    /// It is cut short, has a length past the buffer, or is no record.
    Malformed,
    /// It cannot be read.
    Io(io::Error),
}

impl From<io::Error> for RecordError {
    fn from(error: io::Error) -> RecordError {
        RecordError::Io(error)
    }
}

/// Reads so many bytes; none if the input ended before.
fn read_if_any<const N: usize, R: Read>(input: &mut R) -> Result<Option<[u8; N]>, RecordError> {
    let mut bytes = [0u8; N];
    let count = read_full(input, &mut bytes)?;
    if count == 0 {
        return Ok(None);
    }
    if count < N {
        return Err(RecordError::Malformed);
    }
    Ok(Some(bytes))
}

/// Reads so many bytes.
fn read_array<const N: usize, R: Read>(input: &mut R) -> Result<[u8; N], RecordError> {
    read_if_any(input)?.ok_or(RecordError::Malformed)
}

/// Reads a number of one byte.
pub fn read_one<R: Read>(input: &mut R) -> Result<u64, RecordError> {
    let [byte] = read_array::<1, _>(input)?;
    Ok(u64::from(byte))
}

/// Reads a number of two bytes, the high one first.
pub fn read_two<R: Read>(input: &mut R) -> Result<usize, RecordError> {
    Ok(usize::from(u16::from_be_bytes(read_array(input)?)))
}

/// Reads the same; none if the input ended before.
pub fn read_two_if_any<R: Read>(input: &mut R) -> Result<Option<usize>, RecordError> {
    Ok(read_if_any(input)?.map(|bytes| usize::from(u16::from_be_bytes(bytes))))
}

/// Reads a number of three bytes, the high one first.
pub fn read_three<R: Read>(input: &mut R) -> Result<usize, RecordError> {
    let [high, middle, low] = read_array::<3, _>(input)?;
    Ok(u32::from_be_bytes([0, high, middle, low]) as usize)
}

/// Reads so many bytes to the beginning of a buffer: they come back with what is left of it.
pub fn read_bytes<'b, R: Read>(
    input: &mut R,
    count: usize,
    buffer: &'b mut [u8],
) -> Result<(&'b [u8], &'b mut [u8]), RecordError> {
    let (bytes, free) = buffer
        .split_at_mut_checked(count)
        .ok_or(RecordError::Malformed)?;
    if read_full(input, bytes)? < count {
        return Err(RecordError::Malformed);
    }
    Ok((bytes, free))
}

/// Reads a length in two bytes, and so many bytes to the beginning of a buffer.
pub fn read_part<'b, R: Read>(
    input: &mut R,
    buffer: &'b mut [u8],
) -> Result<(&'b [u8], &'b mut [u8]), RecordError> {
    let count = read_two(input)?;
    read_bytes(input, count, buffer)
}
