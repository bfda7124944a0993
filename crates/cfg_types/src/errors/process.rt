use crate::document::InvalidJsonCredentials;
use cfg_base::Text;

/// Why a command gives no credentials.
#[derive(Debug, PartialEq, Eq)]
pub enum ProcessCause {
    /// It could not be run.
    NotRun,
    /// It ended with this status, which is not 0, and wrote this to standard error, where that is
    /// UTF-8.
    Status { code: i32, errors: Option<Text> },
    /// What it wrote to standard output is not UTF-8.
    NotUtf8,
    /// What it wrote to standard output is no document of credentials.
    Document(InvalidJsonCredentials),
}

impl Drop for ProcessCause {
    fn drop(self) {
        match self {
            ProcessCause::NotRun => {}
            ProcessCause::Status { code: _, errors: _ } => {}
            ProcessCause::NotUtf8 => {}
            ProcessCause::Document(_) => {}
        }
    }
}
