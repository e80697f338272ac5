//! What errors say of why a file's bytes aren't opened: the same as the line of the refusal. Their texts are derived, so
//! no contract has them.

use std::alloc::Global;
use std::process::Abort;
use std::test::Fail;
use t1_font::{RefusalCode, refusal_text};
use t1_seal::SealError;

/// Why a file's bytes aren't opened, and what the line of each refusal says.
const OF_BYTES: &[(SealError, RefusalCode, &str)] = &[
    (
        SealError::NotAFont,
        RefusalCode::E01,
        "E01 not a PFA or PFB",
    ),
    (
        SealError::BadHeader,
        RefusalCode::E02,
        "E02 bad segment header",
    ),
    (
        SealError::CutShort,
        RefusalCode::E03,
        "E03 segment cut short",
    ),
    (
        SealError::TooShort,
        RefusalCode::E06,
        "E06 encrypted part too short",
    ),
];

/// The error says what a line says behind its number.
fn assert_told(rt: &impl Abort, alloc: Global, error: SealError, line: &str) -> Result<(), Fail> {
    let told = format!(in alloc; "{error}")?;
    assert_eq!(rt;
        line.split_once(' ').map_or("", |parts| parts.1),
        told.as_str(),
        "{line}"
    );
    Ok(())
}

#[test]
fn refusals_say_why(rt: HostRuntime) {
    assert_eq!(rt; refusal_text(RefusalCode::E05), "E05 file too large");
    assert_eq!(rt; refusal_text(RefusalCode::E14), "E14 waivers malformed");
    assert_eq!(rt;
        refusal_text(RefusalCode::E15),
        "E15 waivers past their limit"
    );
}

#[test]
fn errors_say_what_lines_say(rt: HostRuntime) -> Result<(), Fail> {
    for (error, code, line) in OF_BYTES {
        assert_eq!(rt; refusal_text(*code), *line);
        assert_told(&rt, rt.alloc(), *error, line)?;
    }
    Ok(())
}
