//! The place where a walk is.

use t1_char::Path;
use t1_rules::Mask;

/// A place where rules are broken.
#[derive(Drop)]
pub(crate) struct Found {
    pub(crate) unit: u32,
    pub(crate) step: u32,
    pub(crate) path: Path,
    /// The rules that are broken there.
    pub(crate) rules: Mask,
}
