use thiserror::Error;

/// Why no store was made.
#[derive(Clone, Copy, Debug, PartialEq, Eq, Error)]
pub enum StoreFault {
    #[error("a store has from 1 to 67108864 cells")]
    Size,
    #[error("out of memory")]
    Memory,
}
