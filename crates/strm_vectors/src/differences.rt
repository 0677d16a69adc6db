//! Where a pair differs from what a line says.

use std::alloc::AllocError;
use strm_types::{NoMemory, Refusal};
use thiserror::Error;

/// Why a line doesn't hold.
#[derive(Clone, Copy, Debug, Drop, Error)]
pub enum Difference {
    #[error("a pair is made of it")]
    Restored,
    #[error("{0}")]
    Refused(Refusal),
    #[error("the image of its pair is another text")]
    OtherText,
    #[error("its pair has another image")]
    OtherImage,
    #[error("it takes {mblks} message blocks and {dblks} data blocks")]
    Takes { mblks: usize, dblks: usize },
    #[error("it is restored onto {mblks} message blocks and {dblks} data blocks")]
    Enough { mblks: usize, dblks: usize },
    #[error("the script ends early")]
    Ended,
    #[error("the script opens no pair")]
    NoPair,
}

impl From<Refusal> for Difference {
    fn from(why: Refusal) -> Difference {
        Difference::Refused(why)
    }
}

impl From<AllocError> for Difference {
    fn from(_error: AllocError) -> Difference {
        Difference::Refused(Refusal::NoMemory)
    }
}

impl From<NoMemory> for Difference {
    fn from(_error: NoMemory) -> Difference {
        Difference::Refused(Refusal::NoMemory)
    }
}
