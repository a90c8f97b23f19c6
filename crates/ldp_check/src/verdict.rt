use crate::reason::Reason;

/// What the checker says of a certificate.
#[derive(Clone, Copy, Debug, PartialEq, Eq)]
pub enum Verdict {
    /// No usable design has a smaller cost.
    Accepted,
    /// The first reason why it is not shown.
    Rejected(Reason),
}
