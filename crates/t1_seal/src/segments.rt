//! The segments of a PFB file: Adobe Technical Note 5040, the IBM PC format.

ghost use Rattle.t1_seal.specs.SealError.{Reads};
ghost use Rattle.t1_seal.specs.Joined.{joined_text};
ghost use Rattle.t1_seal.specs.Private.Segments.{part_of};
ghost use Rattle.t1_seal.specs.Segments.{as_pfb, joined_of, row_of, segment_of};

use crate::errors::SealError;
use crate::joined::Joined;
use std::alloc::Global;

/// What every segment begins with.
const SEGMENT_MARK: u8 = 128;

const TEXT: u8 = 1;

const BINARY: u8 = 2;

const END: u8 = 3;

/// What a row of segments begins with.
enum Segment<'a> {
    /// The row is over.
    Nothing,
    /// An end segment; what follows it is no part of the row.
    End { rest: &'a [u8] },
    /// The payload of a text or binary segment, and the row that follows it.
    Payload { payload: &'a [u8], rest: &'a [u8] },
}

/// The bytes of a font file without its segments' headers, and which marks the file bears.
///
/// A file that begins with 128 is PFB: its payloads are joined up to an end segment, or to the end of
/// the file. One that begins with `%!` is PFA: its bytes are copied.
#[tactic(auto, unfolding(crate::specs::Segments::joined_of))]
pub fn join(alloc: Global, input: &[u8]) -> Result<Joined, SealError>
    ensures { Reads joined_text result (joined_of input.now) }
{
    match input {
        [SEGMENT_MARK, ..] => join_row(alloc, input),
        [b'%', b'!', ..] => Ok(Joined {
            bytes: Vec::from_slice(alloc, input)?,
            pfb: false,
            end_segment: false,
            trailing: false,
        }),
        _ => Err(SealError::NotAFont),
    }
}

/// Joins a row of segments.
fn join_row(alloc: Global, row: &[u8]) -> Result<Joined, SealError>
    ensures { Reads joined_text result (as_pfb (row_of row.now)) }
{
    let mut bytes = Vec::with_capacity(alloc, row.len())?;
    let mut rest = row;
    loop {
        match first_segment(rest)? {
            Segment::Nothing => {
                return Ok(Joined {
                    bytes,
                    pfb: true,
                    end_segment: false,
                    trailing: false,
                });
            }
            Segment::End { rest } => {
                let trailing = !rest.is_empty();
                return Ok(Joined {
                    bytes,
                    pfb: true,
                    end_segment: true,
                    trailing,
                });
            }
            Segment::Payload {
                payload,
                rest: following,
            } => {
                // This can't fail: there is room for the whole row, of which the payloads are parts.
                bytes.extend_from_slice(payload).unwrap();
                rest = following;
            }
        }
    }
}

/// The segment that a row begins with.
#[tactic(auto, unfolding(crate::specs::Segments::segment_of))]
fn first_segment(row: &[u8]) -> Result<Segment<'_>, SealError>
    ensures { Reads part_of result (segment_of row.now) }
{
    match row {
        [] => Ok(Segment::Nothing),
        [SEGMENT_MARK] => Err(SealError::CutShort),
        [SEGMENT_MARK, END, rest @ ..] => Ok(Segment::End { rest }),
        [SEGMENT_MARK, TEXT | BINARY, a, b, c, d, rest @ ..] => {
            let len = u32::from_le_bytes([*a, *b, *c, *d]) as usize;
            if rest.len() < len {
                return Err(SealError::CutShort);
            }
            let (payload, rest) = rest.split_at(len);
            Ok(Segment::Payload { payload, rest })
        }
        [SEGMENT_MARK, TEXT | BINARY, ..] => Err(SealError::CutShort),
        _ => Err(SealError::BadHeader),
    }
}
