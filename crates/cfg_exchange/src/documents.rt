ghost use Rattle.std.specs.Prelude.{◌≡◌, IfOk};
ghost use Rattle.std.specs.Str.{is_utf8 as is_utf8_of};
ghost use Rattle.cfg_exchange.specs.Documents.{document as document_of, body_document as body_document_of};

use cfg_json::{JsonCredentials, is_memory, parse_json_credentials};
use cfg_types::{InvalidJsonCredentials, OutOfMemory, UnhandledCause};
use std::alloc::Global;

/// What a body says that is to hold a document of credentials, or why it holds none.
pub type Said = Result<JsonCredentials, UnhandledCause>;

pub fn is_utf8(bytes: &[u8]) -> bool
    ensures { result ≡ is_utf8_of bytes.now }
{
    match str::from_utf8(bytes) {
        Ok(_) => true,
        Err(_) => false,
    }
}

// What a document of credentials says, or why the text is none.
fn document(
    alloc: Global,
    text: &str,
) -> Result<Result<JsonCredentials, InvalidJsonCredentials>, OutOfMemory>
    ensures { IfOk result (λ said. said ≡ document_of text.now) }
{
    let said = parse_json_credentials(alloc, text);
    if is_memory(&said) {
        return Err(OutOfMemory);
    }
    Ok(said)
}

// What a body says that is to hold such a document, or why it holds none.
#[tactic(auto, unfolding(crate::specs::Documents::body_document))]
pub fn body_document(alloc: Global, body: &[u8]) -> Result<Said, OutOfMemory>
    ensures { IfOk result (λ said. said ≡ body_document_of body.now) }
{
    let Ok(text) = str::from_utf8(body) else {
        return Ok(Err(UnhandledCause::NotUtf8));
    };
    match document(alloc, text)? {
        Ok(said) => Ok(Ok(said)),
        Err(error) => Ok(Err(UnhandledCause::NoDocument(error))),
    }
}
