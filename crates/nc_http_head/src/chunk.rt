//! Chunk lines and the ends of chunks (RFC 9112, section 7.1).
ghost use Rattle.std.specs.Prelude.{◌≡◌, ℕ, ◌+◌, ◌≤◌, length, take, drop, IfSome, IfNone, IsTrue, ◌↔◌};
ghost use Rattle.httparse.specs.Ascii.{crlf_bytes};
ghost use Rattle.nc_http_head.specs.Heads.{IsLineOf};

use httparse::{Status, parse_chunk_size};

/// The size of the chunk whose line the whole text is. None exactly where it is no chunk-size line.
pub fn size_of_line(text: &[u8]) -> Option<u64>
    ensures some { IfSome result (λ size. IsLineOf text.now size) }
    ensures none { IfNone result ((size : ℕ) → ¬ (IsLineOf text.now size)) }
{
    match parse_chunk_size(text) {
        Ok(Status::Complete((len, size))) => { if len == text.len() { Some(size) } else { None } }
        _ => None,
    }
}

/// Whether CR and LF stand behind the first `size` bytes.
pub fn is_closed(text: &[u8], size: usize) -> bool
    requires { size + 2 ≤ length text.now }
    ensures { IsTrue result ↔ (take 2 (drop size text.now) ≡ crlf_bytes) }
{
    let end = &text[size..size + 2];
    end == b"\r\n".as_slice()
}
