//! How texts are written: `{N:..}` stands for N times what is behind the colon.

use std::alloc::Global;

/// The bytes of a text.
pub fn text_of(alloc: Global, written: &str) -> Option<Vec<u8>> {
    let mut text = Vec::new(alloc);
    for part in written.split('}') {
        let (plain, repeated) = part.split_once('{').unwrap_or((part, "0:"));
        text.extend_from_slice(plain.as_bytes()).ok()?;
        add_repeated(&mut text, repeated)?;
    }
    Some(text)
}

fn add_repeated(text: &mut Vec<u8>, repeated: &str) -> Option<()> {
    let (count, body) = repeated.split_once(':')?;
    for _ in 0..count.parse::<u16>().ok()? {
        text.extend_from_slice(body.as_bytes()).ok()?;
    }
    Some(())
}
