use thiserror::Error;

/// The exact result `num / 2^exp`, in lowest terms, which is out of range.
#[derive(Clone, Copy, Debug, PartialEq, Eq, Error)]
#[error("{num}/2^{exp} is out of range")]
pub struct RangeFault {
    pub num: i128,
    pub exp: u8,
}
