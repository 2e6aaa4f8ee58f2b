//! The sections of a certificate.
use std::str;

/// How many sections a certificate has that are whole.
pub fn section_count(cert: &[u8]) -> u64 {
    let mut count: u64 = 0;
    if let Ok(text) = str::from_utf8(cert) {
        for _ in text.split("\nend\n") {
            count = count.saturating_add(1);
        }
    }
    count.saturating_sub(1)
}
