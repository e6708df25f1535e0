//! Texts, as they are printed.

use std::alloc::{AllocError, Global};

/// A text, with bytes that are no printable ASCII as `\x` and two digits.
pub fn put_text(alloc: Global, out: &mut String, text: &[u8]) -> Result<(), AllocError> {
    for byte in text {
        if 0x20 <= *byte && *byte < 0x7f {
            out.push(*byte as char)?;
        } else {
            out.push_str(format!(in alloc; "\\x{byte:02x}")?.as_str())?;
        }
    }
    Ok(())
}
