//! Short documents.
ghost use Rattle.std.specs.Prelude.{◌≡◌, ◌<◌, length, IfOk};

use std::alloc::{AllocError, Global};

/// The number of documents of so many bytes, each one of `bytes`.
pub fn number_of_documents(bytes: &[u8], len: u32) -> usize {
    bytes.len().saturating_pow(len)
}

/// One of these documents: that of the number's last digits in base `bytes.len()`, so that the numbers
/// below `number_of_documents` give each once.
pub fn document_of(
    alloc: Global,
    bytes: &[u8],
    len: u32,
    number: usize,
) -> Result<Vec<u8>, AllocError>
    requires { 0 < length bytes.now }
    ensures { IfOk result (λ document. length document.items ≡ len) }
{
    let mut document = Vec::new(alloc);
    let mut left = number;
    for _ in 0..len {
        document.push(bytes[left % bytes.len()])?;
        left /= bytes.len();
    }
    Ok(document)
}
