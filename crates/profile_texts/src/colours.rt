//! The colours of shares.

const RED: &[u8] = b"\x1b[31m";

const YELLOW: &[u8] = b"\x1b[33m";

const GREEN: &[u8] = b"\x1b[32m";

const PLAIN: &[u8] = b"\x1b[0m";

/// The code before a share in thousandths, nothing where there are no colours: that of red where lanes take less than a quarter of the
/// places, of yellow where they take less than three quarters, and else of green.
pub(crate) fn ink(share: u64, has_colours: bool) -> &'static [u8] {
    if !has_colours {
        &[]
    } else if share < 250 {
        RED
    } else if share < 750 {
        YELLOW
    } else {
        GREEN
    }
}

/// The code behind it.
pub(crate) fn plain(has_colours: bool) -> &'static [u8] {
    if has_colours { PLAIN } else { &[] }
}
