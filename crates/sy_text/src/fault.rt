// Why text could not be read.
ghost use Rattle.std.specs.Prelude.{◌≡◌};
ghost use Rattle.sy_text.specs.declared.fault.TextEnd.TheVariants.{Want};

use std::alloc::{AllocError, AllocFailed};
use sy_text_items::TextFault;
use thiserror::Error;

/// Why no item was given.
#[derive(Debug, Drop, Error)]
pub enum TextEnd {
    #[error("the text has a fault")]
    Fault(TextFault),
    #[error("want of memory")]
    Want,
}

impl From<AllocError> for TextEnd {
    ghost from_gives = { λ _ e. e ≡ Want };

    fn from(_e: AllocError) -> TextEnd {
        TextEnd::Want
    }
}

impl<T: Drop> From<AllocFailed<T>> for TextEnd {
    ghost from_gives = { λ _ e. e ≡ Want };

    fn from(_e: AllocFailed<T>) -> TextEnd {
        TextEnd::Want
    }
}
