//! Dates, read and written (RFC 3339, section 5.6).
pub mod digits;
pub mod local;
pub mod reading;
pub mod writing;
