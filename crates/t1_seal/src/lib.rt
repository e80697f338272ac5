//! Opens what seals a Type 1 font program: the segments of a PFB file, the encrypted section after the
//! word `eexec`, and the cipher of charstrings.
//!
//! - [`join`] turns a PFA or PFB file into the bytes of its font program and the file's marks: Adobe
//!   Technical Note 5040, the IBM PC format.
//! - [`open_eexec`] turns the bytes after `eexec` into the private text: Adobe Type 1 Font Format 1.1,
//!   chapter 7, eexec encryption.
//! - [`Cipher`] deciphers a charstring, a byte at a time: the same chapter, charstring encryption.
//!
//! What is promised, for all bytes:
//!
//! - The result is what the definitions in `specs/` read, or the refusal that they name. Running out of
//!   memory alone says nothing of the bytes.
//! - No index, sum or cast goes wrong, and each call returns.
//!
//! Each call reads the bytes once, and allocates once at most, with a size that is known before.
//!
//! ```
//! let joined = t1_seal::join(alloc, b"\x80\x01\x03\x00\x00\x00%!\n")?;
//! assert_eq!(rt; joined.bytes.as_slice(), b"%!\n".as_slice());
//! assert!(rt; joined.pfb && !joined.end_segment);
//! ```
#![tactic(auto)]

mod cipher;
mod eexec;
mod errors;
mod joined;
pub mod laws;
mod opening;
mod segments;

pub use cipher::Cipher;
pub use eexec::open_eexec;
pub use errors::SealError;
pub use joined::Joined;
pub use segments::join;
