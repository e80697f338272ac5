//! Laws of the definitions, each proved on a function that does nothing: a caller of the function, or a
//! proof that cites it, has the law.

ghost use Rattle.t1_seal.specs.Laws.Cipher.{DeciphersTheEnciphered, StartsAtTheStart, StateRunsAlong};
ghost use Rattle.t1_seal.specs.Laws.Eexec.{OpensBinary, OpensHexadecimal};
ghost use Rattle.t1_seal.specs.Laws.Segments.{CutFilesTellOfLoss, JoinedPfaIsWritten, JoinedPfbIsWritten, JoinsPfa, JoinsWrittenPfb, ReadRowsAreWritten, ReadsWrittenRows, RefusesByFault};

/// A file that isn't joined is no PFA or PFB file, has a bad header, or is cut short.
pub fn segment_refusals()
    ensures { RefusesByFault }
{}

/// A row written as segments is read as just these, and bytes that are read as a row are so written.
pub fn rows_of_segments()
    ensures read { ReadsWrittenRows }
    ensures written { ReadRowsAreWritten }
{}

/// A file written as segments, or one that begins with `%!`, is joined to what it says. A file that is
/// joined is so written.
pub fn font_files()
    ensures pfb_read { JoinsWrittenPfb }
    ensures pfb_written { JoinedPfbIsWritten }
    ensures pfa_read { JoinsPfa }
    ensures pfa_written { JoinedPfaIsWritten }
{}

/// A PFB file with nothing after its end segment that lost bytes at its end shows it: nothing is left, a
/// segment is cut short, or it is joined without an end segment.
pub fn cut_files_tell_of_loss()
    ensures { CutFilesTellOfLoss }
{}

/// The state of the cipher is that of the standard's formula, a byte at a time.
pub fn cipher_state()
    ensures start { StartsAtTheStart }
    ensures byte { StateRunsAlong }
{}

/// Deciphering undoes enciphering, whatever the start.
pub fn cipher_round_trip()
    ensures { DeciphersTheEnciphered }
{}

/// Cipher bytes that are written in hexadecimal, with blanks among the digits, or as they are, open.
pub fn eexec_sections()
    ensures hexadecimal { OpensHexadecimal }
    ensures binary { OpensBinary }
{}
