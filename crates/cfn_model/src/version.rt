//! The versions of certificates.

/// The version of a certificate's text. The first has splits by a value alone, the second by a bound, too.
#[derive(Clone, Copy, PartialEq, Eq)]
pub enum Version {
    First,
    Second,
}
