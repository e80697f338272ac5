//! Encryption: Type 1 Font Format 1.1, chapter 7.

ghost use Rattle.std.specs.Prelude.{◌≡◌, ◌++◌, IfOk, replicate};
ghost use Rattle.t1_seal.specs.Cipher.{charstring_start, eexec_start};
ghost use Rattle.t1_seal.specs.Laws.Cipher.{encrypted};

use std::alloc::{AllocError, Global};
use t1_seal::Cipher;

/// The cipher bytes of an encrypted section: of four bytes that are discarded, and the private text.
pub fn eexec(alloc: Global, discarded: [u8; 4], text: &[u8]) -> Result<Vec<u8>, AllocError>
    ensures { IfOk result (λ cipher. cipher.items ≡ encrypted eexec_start (discarded ++ text.now)) }
{
    let mut plain = Vec::from_slice(alloc, &discarded)?;
    plain.extend_from_slice(text)?;
    encrypt(alloc, Cipher::eexec(), plain.as_slice())
}

/// The cipher bytes of a charstring: of so many zero bytes, the number in `/lenIV`, and its plain bytes.
pub fn charstring(alloc: Global, zeros: u8, bytes: &[u8]) -> Result<Vec<u8>, AllocError>
    ensures { IfOk result (λ cipher. cipher.items ≡ encrypted charstring_start (replicate zeros 0
        ++ bytes.now)) }
{
    let mut plain = vec![in alloc; 0u8; usize::from(zeros)]?;
    plain.extend_from_slice(bytes)?;
    encrypt(alloc, Cipher::charstring(), plain.as_slice())
}

/// The cipher bytes of plain bytes, from a state on.
fn encrypt(alloc: Global, start: Cipher, plain: &[u8]) -> Result<Vec<u8>, AllocError>
    ensures { IfOk result (λ cipher. cipher.items ≡ encrypted start.r plain.now) }
{
    let mut state = start;
    let mut cipher = Vec::with_capacity(alloc, plain.len())?;
    for byte in plain {
        cipher.push(state.seal(*byte))?;
    }
    Ok(cipher)
}
