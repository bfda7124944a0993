//! Laws, each on a call that carries it.
ghost use Rattle.std.specs.Prelude.{◌≡◌, ◌↔◌, ℕ, List, Option, Ok, Some, IfOk, Result, slice_get};
ghost use Rattle.cfg_base.specs.Moment.{Moment};
ghost use Rattle.cfg_world.specs.Fits.{Pair};
ghost use Rattle.cfg_world.specs.Inquiry.{Reads};
ghost use Rattle.cfg_token.specs.declared.sections.Sectioned.{Sectioned};
ghost use Rattle.cfg_token.specs.KeptUses.{UsesKept};
ghost use Rattle.cfg_token.specs.Rules.{Rules};
ghost use Rattle.cfg_token.specs.SectionRows.{SectionRow};
ghost use Rattle.cfg_token.specs.Sections.{section};
ghost use Rattle.std.specs.Str.{encode_utf8_all};
ghost use Rattle.cfg_token.specs.Spacing.{Spaced, attempts_in, NotedAtReading, EndsAfterReading};
ghost use Rattle.cfg_types.specs.Environment.{Variables};
ghost use Rattle.cfg_types.specs.declared.settings.CallSettings.{CallSettings};
ghost use Rattle.cfg_token.specs.Histories.{History, AddsAtMostOne};
ghost use Rattle.cfg_token.specs.LoadParts.{last_before, RefreshesFile, HandsOut};
ghost use Rattle.cfg_token.specs.SectionCalls.{Answers};
ghost use Rattle.cfg_token.specs.declared.token_key.TokenKey.{TokenKey};
ghost use Rattle.cfg_token.specs.declared.sso_token.CachedSsoToken.{CachedSsoToken};
ghost use Rattle.cfg_token.specs.SsoFile.{sso_file};
ghost use Rattle.cfg_token.specs.SsoText.{IsSsoText, HasTexts};

use crate::file_token::FileToken;
use crate::loads::Loads;
use cfg_world::Asking;

/// What is written for a token whose texts are of Unicode characters is read back as this token.
pub fn written_tokens_are_read_back()
    ensures { (token : CachedSsoToken) (text : List ℕ) → HasTexts token → IsSsoText token text → sso_file (encode_utf8_all text) ≡ Ok token }
{}

/// Two noted refreshes of one token are at least 30 seconds apart by their readings.
pub fn refreshes_are_spaced<T: FileToken>(loads: &Loads<T>)
    ensures spaced { Spaced (attempts_in loads.now) }

    // Each is the second reading among its load's receipts.
    ensures readings { (i : ℕ) (r : _) → slice_get loads.now.records i ≡ Some r → NotedAtReading r }
{
    let _records = loads.records();
}

/// A token that a load gave ends after the load's second reading of the clock, which is its last.
pub fn handed_out_tokens_last<T: FileToken>(loads: &Loads<T>)
    ensures { (i : ℕ) (r : _) → slice_get loads.now.records i ≡ Some r → EndsAfterReading T.rules r }
{
    let _records = loads.records();
}

/// A section is a hit, or a load by one of its rows, and the other way round, whatever the kind of token: a row
/// says which entries the section's part has, in order, and what is made of them.
pub fn a_section_is_its_rows<T, E>()
    ensures { (t : Rules T E) (key : TokenKey) (env : Variables) (settings : CallSettings)
        (kept : Option T) (last : Option Moment) (part : List Pair) (made : Sectioned T E) →
        Reads (section t key env settings kept last) part made ↔ SectionRow t key env settings kept last part made }
{}

/// A kept token is handed out, and nothing but the clock is asked, exactly where more than 300 seconds of it are
/// left at the first reading. No other token is handed out so, and none where none is kept.
pub fn a_kept_token_is_handed_out_by_one_reading<T, E>()
    ensures { (t : Rules T E) (key : TokenKey) (env : Variables) (settings : CallSettings)
        (kept : Option T) (last : Option Moment) (part : List Pair) (made : Sectioned T E) →
        Reads (section t key env settings kept last) part made → UsesKept t kept part made }
{}

/// A request that a load sent is that for a new token of the file which the load had read before it,
/// whose token was to be refreshed by the load's second reading and the last attempt before the load.
pub fn refreshes_are_of_the_file_that_was_read<T: FileToken>(loads: &Loads<T>)
    ensures { (i : ℕ) (r : _) → slice_get loads.now.records i ≡ Some r → RefreshesFile T.rules (last_before loads.now i) r.receipts }
{
    let _records = loads.records();
}

/// A token that a load gave is what the decision on the token of its file says, by the load's own
/// receipts and the last attempt before the load: that of the file, or what a refresh gave.
pub fn handed_out_tokens_are_decided<T: FileToken>(loads: &Loads<T>)
    ensures { (i : ℕ) (r : _) → slice_get loads.now.records i ≡ Some r → IfOk r.outcome (HandsOut T.rules (last_before loads.now i) r.receipts) }
{
    let _records = loads.records();
}

/// A section that answered leaves the loads as they were, or with one record more.
pub fn a_section_adds_at_most_one_record<T: FileToken, A: Asking>()
    ensures { (key : TokenKey) (env : Variables) (settings : CallSettings) (old new : A) (before later : History T T.Error) (given : Result T T.Error) →
        Answers T.rules ⟦<A as Asking>⟧ key env settings old before new later given → AddsAtMostOne before later }
{}
