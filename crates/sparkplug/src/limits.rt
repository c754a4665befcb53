//! What the users of a broker may hold.

use spk_commands::LimitsPlan;
use spk_runtime::Holdings;
use std::alloc::{AllocError, Global};

/// A day, in milliseconds.
const DAY: u64 = 86_400_000;

/// What the users of a broker hold, at first nothing, and may hold, where that is asked for.
pub(crate) fn holdings_of(
    alloc: Global,
    plan: Option<LimitsPlan>,
) -> Result<Option<Holdings>, AllocError> {
    let Some(LimitsPlan { limits, days }) = plan else {
        return Ok(None);
    };
    let patience = u64::from(days).saturating_mul(DAY);
    Ok(Some(Holdings::new(alloc, limits, patience)?))
}
