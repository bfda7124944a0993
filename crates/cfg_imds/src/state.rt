//! What is kept between the calls of a client.
ghost use Rattle.std.specs.Prelude.{◌≡◌, None as none, option_map};

use crate::token::MetadataToken;
use cfg_types::{OutOfMemory, TryCopy, copy_option};
use std::alloc::Global;
use std::marker::Model;

/// The session token that is kept between the calls of a client, if one is.
#[derive(Drop)]
pub struct ImdsTokenState {
    pub(crate) kept: Option<MetadataToken>,
}

impl Model for ImdsTokenState {
    ghost use Rattle.std.specs.Prelude.{Option};
    ghost use Rattle.cfg_imds.specs.Tokens.{ReceiptedToken};

    ghost Value = { Option ReceiptedToken };

    ghost view = { λ s. s.kept };
}

impl ImdsTokenState {
    /// No token is kept.
    pub fn new() -> ImdsTokenState
        ensures { result ≡ none }
    {
        ImdsTokenState { kept: None }
    }

    /// The token that is kept, if one is.
    pub fn kept(&self) -> Option<&MetadataToken>
        ensures { option_map (λ t. t.now) result ≡ self.now }
    {
        self.kept.as_ref()
    }
}

impl TryCopy for ImdsTokenState {
    fn copy(&self, alloc: Global) -> Result<ImdsTokenState, OutOfMemory> {
        let kept = copy_option(alloc, &self.kept)?;
        Ok(ImdsTokenState { kept })
    }
}
