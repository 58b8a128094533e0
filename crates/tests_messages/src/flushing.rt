//! Messages to a writer that keeps back what is not flushed.
use adapter_frames::write_frame;
use std::io::{self, BufWriter};
use std::test::*;

#[test]
fn each_message_is_flushed(rt: HostRuntime) -> io::Result<()> {
    let mut writer = BufWriter::new(rt.alloc(), Vec::new(rt.alloc()))?;
    write_frame(rt.alloc(), &mut writer, b"{}")?;
    let one = b"Content-Length: 2\r\n\r\n{}".as_slice();
    assert!(rt; writer.get_ref().as_slice() == one);
    write_frame(rt.alloc(), &mut writer, b"[1]")?;
    let both = b"Content-Length: 2\r\n\r\n{}Content-Length: 3\r\n\r\n[1]".as_slice();
    assert!(rt; writer.get_ref().as_slice() == both);
    Ok(())
}
