use crate::{TextEnd, Texts};
use std::test::Fail;
use tcs_io::MemSource;

#[test]
fn lines_are_put_together(rt: HostRuntime) -> Result<(), Fail> {
    let alloc = rt.alloc();
    for (bytes, most, end) in [
        (0, 0, TextEnd::Whole),
        (5000, 5000, TextEnd::Whole),
        (5001, 5000, TextEnd::Long),
        (4097, 4096, TextEnd::Long),
        (20000, 5000, TextEnd::Long),
    ] {
        let mut all = Vec::new(alloc);
        all.resize(bytes, b'x')?;
        all.extend_from_slice(b"\nrest")?;
        let mut source = MemSource::new(all, 1000, Vec::new(alloc));
        let mut texts = Texts::begin(alloc)?;
        let mut text = Vec::new(alloc);
        assert_eq!(rt;
            texts.next_text(&mut source, &mut text, most),
            Ok(end),
            "{bytes}"
        );
        if end == TextEnd::Whole {
            assert_eq!(rt; text.len(), bytes);
            assert_eq!(rt;
                texts.next_text(&mut source, &mut text, most),
                Ok(TextEnd::Ended)
            );
            assert_eq!(rt; text.as_slice(), b"rest".as_slice());
        }
    }
    Ok(())
}
